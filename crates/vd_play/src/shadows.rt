//! How many epochs are of the mode shadow.
ghost use Rattle.std.specs.Prelude.{◌≡◌};
ghost use Rattle.vd_play.specs.Epochs.{mode_after};
ghost use Rattle.vd_play.specs.Rings.{shadow_count, shadows_from};

use vd_machine::{Switch, To};
use vd_model::Mode;

/// The mode after a switch.
pub(crate) fn mode_after(mode: Mode, to: To) -> Mode
    ensures { result ≡ mode_after mode to }
{
    match to {
        To::Pass => Mode::Pass,
        To::Shadow => Mode::Shadow,
        To::Renew => mode,
    }
}

/// One for an epoch of the mode shadow.
fn shadow_count(mode: Mode) -> usize
    ensures { result ≡ shadow_count mode }
{
    match mode {
        Mode::Pass => 0,
        Mode::Shadow => 1,
    }
}

/// How many of the epochs that these switches end are of the mode shadow, and of the one after them.
pub(crate) fn shadow_epochs(start: Mode, switches: &[Switch]) -> usize
    ensures { result ≡ shadows_from switches.now start }
{
    let mut mode = start;
    let mut count = 0;
    for switch in switches {
        count += shadow_count(mode);
        mode = mode_after(mode, switch.to);
    }
    count + shadow_count(mode)
}
