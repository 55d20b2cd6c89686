//! How many chains a device is attached to begin, in which mode, and whether it is reset before.
ghost use Rattle.std.specs.Prelude.{◌≡◌, ◌≤◌, ◌+◌, ◌*◌, false, min, length, slice_get};
ghost use Rattle.std.specs.Option.{option_map_or};
ghost use Rattle.vd_bus.specs.Scripts.{run_count};
ghost use Rattle.vd_machine.specs.File.{view};
ghost use Rattle.vd_play.specs.Epochs.{mode_at, renewed_at, is_renewal};
ghost use Rattle.vd_play.specs.Renewing.{renewal_count, renewals};
ghost use Rattle.vd_play.specs.Orders.{stop_of};

use crate::shadows::mode_after;
use vd_machine::{Machine, Switch, To};
use vd_model::{Mode, Run};

/// How many chains the runs have.
pub(crate) fn chain_count(runs: &[Run]) -> u32
    requires { run_count runs.now ≤ u32.MAX }
    ensures { result ≡ run_count runs.now }
{
    runs.iter().map(|run| run.count).sum()
}

/// Where an epoch of a queue of `n` chains ends: at its switch, or where no chain is left.
pub(crate) fn stop_of(switches: &[Switch], epoch: usize, n: u32) -> u32
    ensures { result ≡ stop_of switches.now epoch n }
{
    match switches.get(epoch) {
        Some(switch) => switch.after.min(n),
        None => n,
    }
}

/// The mode of an epoch: what the switches before it make of the first one; behind the last of these, pass.
pub(crate) fn mode_of(m: &Machine, epoch: usize) -> Mode
    ensures { result ≡ mode_at (view m.now) epoch }
{
    let switches = m.switches.as_slice();
    if switches.len() < epoch {
        return Mode::Pass;
    }
    let mut mode = m.start;
    for i in 0..epoch {
        mode = mode_after(mode, switches[i].to);
    }
    mode
}

/// Whether a switch is a renewal.
fn is_renewal(to: To) -> bool
    ensures { result ≡ is_renewal to }
{
    match to {
        To::Renew => true,
        To::Pass => false,
        To::Shadow => false,
    }
}

/// Whether the switch of this number is a renewal.
fn is_renewal_at(switches: &[Switch], number: usize) -> bool
    ensures { result ≡ option_map_or (λ s. is_renewal s.to) (slice_get switches.now number) false }
{
    match switches.get(number) {
        Some(switch) => is_renewal(switch.to),
        None => false,
    }
}

/// Whether an epoch begins with a renewal: the switch before it is one.
pub(crate) fn is_renewed(m: &Machine, epoch: usize) -> bool
    ensures { result ≡ renewed_at (view m.now) epoch }
{
    if epoch == 0 {
        return false;
    }
    is_renewal_at(m.switches.as_slice(), epoch - 1)
}

/// One for a renewal.
fn renewal_count(to: To) -> u32
    ensures { result ≡ renewal_count to }
{
    match to {
        To::Renew => 1,
        To::Pass => 0,
        To::Shadow => 0,
    }
}

/// How many events the journal of a device has: an attach and a suspension in each epoch, and a reset where it begins with a renewal.
pub(crate) fn event_count(switches: &[Switch]) -> u32
    requires few { length switches.now ≤ 16 }
    requires renewals { renewals switches.now ≤ 16 }
    ensures { result ≡ 2 * (length switches.now + 2) + renewals switches.now }
{
    let resets: u32 = switches.iter().map(|switch| renewal_count(switch.to)).sum();
    2 * (switches.len() as u32 + 2) + resets
}
