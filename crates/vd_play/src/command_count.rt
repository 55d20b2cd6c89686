//! How many commands the control queue's device begins, those that are replayed counted.
ghost use Rattle.std.specs.Prelude.{◌≡◌, ◌≤◌, ◌+◌, ◌<◌, Some, length, slice_get};
ghost use Rattle.vd_control.specs.Settings.{HasPairs};
ghost use Rattle.vd_machine.specs.File.{view};
ghost use Rattle.vd_play.specs.AllWork.{command_work};
ghost use Rattle.vd_play.specs.CommandLane.{most_commands};
ghost use Rattle.vd_play.specs.Commands.{control_commands, control_epochs, replayed_commands, sent_at, settings_at};
ghost use Rattle.vd_play.specs.ControlJournal.{epoch_commands};
ghost use Rattle.vd_play.specs.Epochs.{Epoch};

use crate::order::{is_renewed, stop_of};
use vd_control::{Command, Settings, replay_len};
use vd_machine::Machine;

/// How many commands the guest of the control queue has; none, where there is no control queue.
fn own_count(m: &Machine) -> u32
    ensures value { result ≡ length (control_commands (view m.now)) }
    ensures few { result ≤ most_commands }
{
    match &m.control {
        Some(script) => script.commands.len() as u32,
        None => 0,
    }
}

/// How many of them are begun before an epoch.
fn sent_before(m: &Machine, epoch: usize) -> u32
    requires epoch { epoch ≤ length m.now.switches + 2 }
    ensures value { result ≡ sent_at (view m.now) epoch }
    ensures few { result ≤ length (control_commands (view m.now)) }
{
    if epoch == 0 {
        return 0;
    }
    stop_of(m.switches.as_slice(), epoch - 1, own_count(m))
}

/// How many commands are replayed as an epoch begins: after a renewal what sets again what was set.
fn replay_count(m: &Machine, epoch: usize, settings: &Settings) -> u32
    requires pairs { HasPairs settings.now }
    requires set { settings.now ≡ settings_at (view m.now) epoch }
    ensures value { (ep : Epoch) → slice_get (control_epochs (view m.now)) epoch ≡ Some ep
        → result ≡ length (replayed_commands (view m.now) ep) }
    ensures few { result ≤ 4105 }
{
    if is_renewed(m, epoch) {
        replay_len(settings)
    } else {
        0
    }
}

/// How many commands the device is attached to begin in an epoch: those of a replay, and the epoch's own.
pub(crate) fn command_count(m: &Machine, epoch: usize, settings: &Settings) -> u32
    requires epoch { epoch < length m.now.switches + 2 }
    requires pairs { HasPairs settings.now }
    requires set { settings.now ≡ settings_at (view m.now) epoch }
    ensures value { (ep : Epoch) → slice_get (control_epochs (view m.now)) epoch ≡ Some ep
        → result ≡ length (epoch_commands (view m.now) ep) }
    ensures few { result ≤ 8201 }
{
    let own = sent_before(m, epoch + 1) - sent_before(m, epoch);
    replay_count(m, epoch, settings) + own
}

/// What the commands begun before an epoch have set, from the default on.
fn settings_before(m: &Machine, epoch: usize) -> Settings
    requires epoch { epoch ≤ length m.now.switches + 2 }
    ensures value { result ≡ settings_at (view m.now) epoch }
    ensures pairs { HasPairs result }
{
    let mut settings = Settings::new();
    if let Some(script) = &m.control {
        let commands = script.commands.as_slice();
        for i in 0..sent_before(m, epoch) as usize {
            if let Some(command) = Command::read(commands[i].as_slice()) {
                settings.apply(&command);
            }
        }
    }
    settings
}

/// How many commands the device begins in all: the guest's own, and those of each replay.
pub(crate) fn command_work(m: &Machine) -> u32
    ensures { result ≡ command_work (view m.now) }
{
    let mut count = own_count(m);
    for epoch in 0..m.switches.len() + 2 {
        count += replay_count(m, epoch, &settings_before(m, epoch));
    }
    count
}
