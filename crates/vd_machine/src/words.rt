//! How many words all rings have.
ghost use Rattle.std.specs.Prelude.{◌≡◌, ◌≤◌, ◌<◌, ◌^◌, ◌+◌, length, true};
ghost use Rattle.vd_machine.specs.Queues.{few};
ghost use Rattle.vd_machine.specs.Switches.{are_switches};
ghost use Rattle.vd_machine.specs.Words.{areas, tables, ring_words, mode_after, if_shadow, shadow_epochs, ring_count, control_words, control_count, all_words, are_few_words};

use crate::{Switch, To};
use vd_model::{Features, Mode, Script};

/// How many words all rings may have.
const MOST_WORDS: u64 = 4_194_304;

fn areas(packed: bool, size: u64) -> u64
    requires { size < 2 ^ 32 }
    ensures value { result ≡ areas packed size }
    ensures small { result < 2 ^ 34 }
{
    if packed {
        2
    } else {
        (size + 6) / 4 + (size + 1)
    }
}

fn tables(indirect: bool, size: u64) -> u64
    requires { size < 2 ^ 32 }
    ensures value { result ≡ tables indirect size }
    ensures small { result < 2 ^ 37 }
{
    if indirect { 32 * size } else { 0 }
}

/// How many words a data ring has.
pub fn ring_words(packed: bool, size: u32, features: Features) -> u64
    ensures value { result ≡ ring_words packed size features }
    ensures small { result < 2 ^ 38 }
{
    let places = size as u64;
    2 * places + areas(packed, places) + tables(features.indirect, places) + 2
}

/// How many words a control ring has: of each place two more for its command, and one for its ack.
pub fn control_words(packed: bool, size: u32, features: Features) -> u64
    ensures value { result ≡ control_words packed size features }
    ensures small { result < 2 ^ 39 }
{
    ring_words(packed, size, features) + 3 * size as u64
}

fn mode_after(mode: Mode, to: To) -> Mode
    ensures { result ≡ mode_after mode to }
{
    match to {
        To::Pass => Mode::Pass,
        To::Shadow => Mode::Shadow,
        To::Renew => mode,
    }
}

fn if_shadow(mode: Mode) -> u64
    ensures value { result ≡ if_shadow mode }
    ensures small { result ≤ 1 }
{
    match mode {
        Mode::Pass => 0,
        Mode::Shadow => 1,
    }
}

/// How many epochs are of the mode shadow: one begins in the mode `start`, and one with each switch.
pub fn shadow_epochs(start: Mode, switches: &[Switch]) -> u64
    ensures value { result ≡ shadow_epochs start switches.now }
    ensures small { result ≤ length switches.now + 1 }
{
    let mut mode = start;
    let mut count = if_shadow(mode);
    for switch in switches {
        mode = mode_after(mode, switch.to);
        count += if_shadow(mode);
    }
    count
}

/// How many rings so many data queues have.
pub fn ring_count(start: Mode, switches: &[Switch], queues: &[Script]) -> u64
    requires switches { are_switches switches.now ≡ true }
    requires queues { few queues.now ≡ true }
    ensures value { result ≡ ring_count start switches.now (length queues.now) }
    ensures small { result ≤ 144 }
{
    queues.len() as u64 * (1 + shadow_epochs(start, switches))
}

/// How many rings the control queue has, where there is one: its guest's, and one more for each epoch, the closing one too.
pub fn control_count(on: bool, switches: &[Switch]) -> u64
    requires { are_switches switches.now ≡ true }
    ensures value { result ≡ control_count on switches.now }
    ensures small { result ≤ 19 }
{
    if on { 3 + switches.len() as u64 } else { 0 }
}

/// How many words so many data rings and so many control rings have.
pub fn all_words(packed: bool, size: u32, features: Features, rings: u64, controls: u64) -> u64
    requires rings { rings ≤ 144 }
    requires controls { controls ≤ 19 }
    ensures { result ≡ all_words packed size features rings controls }
{
    ring_words(packed, size, features) * rings + control_words(packed, size, features) * controls
}

/// Whether these are no more words than there may be.
pub fn are_few_words(words: u64) -> bool
    ensures { result ≡ are_few_words words }
{
    words <= MOST_WORDS
}
