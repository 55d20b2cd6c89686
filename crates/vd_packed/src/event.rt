//! Event words: the own one, and whether the other side's asks for a signal (VIRTIO 1.2, 2.8.10 and 2.8.14).
ghost use Rattle.std.specs.Prelude.{◌≡◌, ◌-◌, ◌<◌, ◌≤◌};
ghost use Rattle.vd_bits.specs.Lanes.{lane32};
ghost use Rattle.vd_event.specs.Rings.{wants};
ghost use Rattle.vd_event.specs.declared.rule.EventRule.TheVariants as rule;
ghost use Rattle.vd_packed.specs.Events.{armed_word, off_value};

use vd_bits::lane32;
use vd_event::{Answer, Due, EventRule, arm_word, off_word};

/// The own event word of a side that waits for the descriptor at a position. Without EVENT_IDX it asks for every signal.
pub fn armed_word(size: u32, event_idx: bool, position: u64) -> u64
    requires { (1 ≤ size) × (size ≤ 32768) }
    ensures { result ≡ armed_word size event_idx position }
{
    if event_idx {
        arm_word(EventRule::Packed { size }, position) as u64
    } else {
        0
    }
}

/// The own event word of a side that wants no signal.
pub fn disarmed_word(size: u32) -> u64
    ensures { result ≡ off_value size }
{
    match off_word(EventRule::Packed { size }) {
        Some(word) => word as u64,
        None => unreachable!(),
    }
}

/// Whether the other side's event word asks for a signal for the descriptors at the positions `old` to `new - 1`.
pub fn asks(size: u32, old: u64, new: u64, word: u64) -> bool
    requires some { old < new }
    requires near { new - old ≤ size }
    ensures { result ≡ wants (rule.Packed size) old new (lane32 word 0) }
{
    let due = Due::new(EventRule::Packed { size }, old, new);
    matches!(due.check(lane32(word, 0)), Answer::Ring)
}
