//! Event words against the descriptors that they name, for each range at each position of four laps.
ghost use Rattle.std.specs.Prelude.{◌<◌, ◌≤◌};

use crate::event::{armed_word, asks};
use std::test::*;

/// The event word that names the descriptor at a position: flags 2, the wrap of its lap, of which the first has 1, and its place
/// (VIRTIO 1.2, 2.8.14).
fn named(size: u32, position: u64) -> u32 {
    let mut place = 0u32;
    let mut wrap = 1u32;
    for _ in 0..position {
        place = place.wrapping_add(1);
        if place == size {
            place = 0;
            wrap ^= 1;
        }
    }
    2 << 16 | wrap << 15 | place & 0x7fff
}

/// Whether an event word asks for a signal for so many descriptors from this position on: its flags are 0, or it names one of them.
fn expected(size: u32, position: u64, count: u32, event: u32) -> bool {
    if event >> 16 == 0 {
        return true;
    }
    for i in 0..count {
        if event == named(size, position.wrapping_add(i as u64)) {
            return true;
        }
    }
    false
}

/// Whether each event word is read so, for so many descriptors from this position on.
fn agrees(size: u32, position: u64, count: u32) -> bool
    requires { (position < 1000) × (0 < count) × (count ≤ size) }
{
    for flags in 0..4u32 {
        for offset in 0..8u32 {
            for wrap in [0, 1 << 15] {
                let event = flags << 16 | wrap | offset;
                let read = asks(size, position, position + count as u64, event as u64);
                if read != expected(size, position, count, event) {
                    return false;
                }
            }
        }
    }
    true
}

#[test]
fn event_words_are_read_as_the_format_has_them(rt: HostRuntime) {
    for size in [2u32, 3, 5, 7] {
        assert!(rt; 1 <= size && size <= 7);
        for position in 0..28u64 {
            let word = named(size, position) as u64;
            assert_eq!(rt; armed_word(size, true, position), word);
            assert_eq!(rt; armed_word(size, false, position), 0);
            for count in 1..8u32 {
                if count <= size {
                    assert!(rt; agrees(size, position, count));
                }
            }
        }
    }
}
