//! A published range that is to be checked against the other side's event word.
ghost use Rattle.std.specs.Prelude.{◌≡◌, ◌<◌, ◌≤◌, ◌-◌, ◌+◌, ◌↔◌, ◌⊎◌, ℕ, IsTrue};
ghost use Rattle.vd_event.specs.Words.{IsArmedAt, IsOn, off_word, reach};
ghost use Rattle.vd_event.specs.Rings.{HasPlace, Rings, RingsPacked, Published, period};
ghost use Rattle.vd_event.specs.declared.rule.EventRule.TheVariants.{Packed};
ghost use Rattle.vd_event.specs.declared.due.Answer.TheVariants.{Ring, Quiet};

use crate::EventRule;
use std::marker::Model;
use vd_bits::{need_event, place, wrap};

/// Whether the bell is to be rung.
#[derive(Copy, Clone, Debug, PartialEq, Eq)]
pub enum Answer {
    /// The other side wants a signal for a position of the range.
    Ring,
    /// It wants none.
    Quiet,
}

/// The published range `old` to `new - 1`, of entries in a split ring and of descriptors in a packed ring, not yet checked. It can't be
/// dropped or copied: whoever publishes has to check, once.
pub struct Due {
    rule: EventRule,
    old: u64,
    new: u64,
}

impl Model for Due {
    ghost use Rattle.std.specs.Prelude.{◌<◌, ◌≤◌, ◌-◌};
    ghost use Rattle.vd_event.specs.Words.{reach};
    ghost use Rattle.vd_event.specs.Rings.{Published};

    ghost Value = { Published };

    ghost view = { λ d. record { rule = d.rule; old = d.old; new = d.new } };

    ghost invariant = { λ d. (d.old < d.new) × (d.new - d.old ≤ reach d.rule) };
}

impl Due {
    /// The range `old` to `new - 1`, in positions since the ring was made.
    #[inline]
    pub fn new(rule: EventRule, old: u64, new: u64) -> Due
        requires some { old < new }
        requires near { new - old ≤ reach rule }
        ensures { result ≡ record { rule = rule; old = old; new = new } }
    {
        Due { rule, old, new }
    }

    /// Whether the other side, which left this event word, wants a signal for the range (VIRTIO 1.2, 2.7.7, 2.7.10 and 2.8.14). Bits that
    /// the rule doesn't name are ignored.
    #[inline]
    pub fn check(self, word: u32) -> Answer
        ensures ring { (result ≡ Ring) ↔ Rings self.rule self.old self.new word }
        ensures quiet { (result ≡ Quiet) ↔ ¬ Rings self.rule self.old self.new word }

        // Of a packed ring: its flags enable every signal, or name a position of the range.
        ensures packed { (size : ℕ) → self.rule ≡ Packed size → (result ≡ Ring) ↔ RingsPacked size self.old self.new word }

        // A side that waits for a position of the range is told.
        ensures armed { (s : ℕ) → IsArmedAt self.rule s word → self.old ≤ s → s < self.new → result ≡ Ring }

        // One that waits for another position, near enough that the word can't mean a position of the range, isn't.
        ensures apart { (s : ℕ) → IsArmedAt self.rule s word → self.new ≤ s + period self.rule → s < self.old + period self.rule
            → (s < self.old) ⊎ (self.new ≤ s) → result ≡ Quiet }

        // One that wants none gets none, and one that wants each gets each.
        ensures off { off_word self.rule ≡ Some word → result ≡ Quiet }
        ensures on { IsOn self.rule word → result ≡ Ring }
    {
        let Due { rule, old, new } = self;
        if rings(rule, old, new, word) {
            Answer::Ring
        } else {
            Answer::Quiet
        }
    }
}

/// Whether the word asks for a signal for the range `old` to `new - 1`.
fn rings(rule: EventRule, old: u64, new: u64, word: u32) -> bool
    requires some { old < new }
    requires near { new - old ≤ reach rule }
    ensures { IsTrue result ↔ Rings rule old new word }
{
    match rule {
        EventRule::SplitFlags => word % 2 == 0,
        EventRule::SplitIndex => {
            let event = (word % 0x1_0000) as u16;
            need_event(event, (new % 0x1_0000) as u16, (old % 0x1_0000) as u16)
        }
        EventRule::Packed { size } => match word / 0x1_0000 % 4 {
            0 => true,
            2 => has_place(size, old, new, word % 0x8000, word / 0x8000 % 2 == 1),
            _ => false,
        },
    }
}

/// Whether a position of the range has this place and wrap. The range is at most one lap, so only the first position from `old` on
/// that has the place can be it: in the lap of `old`, or in the next one, where the wrap is the other.
fn has_place(size: u32, old: u64, new: u64, offset: u32, wrap_bit: bool) -> bool
    requires some { old < new }
    requires near { new - old ≤ size }
    ensures { IsTrue result ↔ HasPlace size old new offset wrap_bit }
{
    if size <= offset {
        return false;
    }
    let first = place(old, size);
    if first <= offset {
        wrap_bit == wrap(old, size) && u64::from(offset - first) < new - old
    } else {
        wrap_bit != wrap(old, size) && u64::from(size - first + offset) < new - old
    }
}
