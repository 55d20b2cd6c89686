//! A command's bytes as two words, and back.
ghost use Rattle.std.specs.Prelude.{◌≡◌, ◌<◌, ◌≤◌, length};
ghost use Rattle.std.specs.List.{All};
ghost use Rattle.std.specs.Option.{option_copied};
ghost use Rattle.vd_commands.specs.Words.{ack_for, command_word, word_bytes};

use arrayvec::ArrayVec;
use vd_control::Command;

/// The two command words of a head.
#[derive(Copy, Clone, Debug, PartialEq, Eq)]
pub struct Words {
    pub first: u64,
    pub second: u64,
}

/// The command's bytes in two words, the lowest byte first, filled up with zeros.
pub fn words_of(bytes: &[u8]) -> Words
    requires { length bytes.now ≤ 10 }
    ensures first { result.first ≡ command_word bytes.now 0 }
    ensures second { result.second ≡ command_word bytes.now 1 }
{
    let mut all = [0; 16];
    for (place, byte) in bytes.iter().enumerate() {
        all[place] = *byte;
    }
    let [a, b, c, d, e, f, g, h, i, j, k, l, m, n, o, p] = all;
    Words {
        first: u64::from_le_bytes([a, b, c, d, e, f, g, h]),
        second: u64::from_le_bytes([i, j, k, l, m, n, o, p]),
    }
}

/// The first so many bytes of two command words, at most 10.
pub fn bytes_of(count: u32, words: Words) -> ArrayVec<u8, 10>
    requires { count ≤ 10 }
    ensures { result.items ≡ word_bytes count words.first words.second }
{
    let mut bytes = ArrayVec::new();
    let first = words.first.to_le_bytes();
    let second = words.second.to_le_bytes();
    for place in 0..count as usize {
        bytes.push(if place < 8 {
            first[place]
        } else {
            second[place - 8]
        });
    }
    bytes
}

/// The law of the words: the bytes come back from them. It does nothing when it runs.
pub fn words_come_back(bytes: &[u8])
    requires { length bytes.now ≤ 10 }
    ensures { word_bytes (length bytes.now) (command_word bytes.now 0) (command_word bytes.now 1) ≡ bytes.now }
{
    let _count = bytes.len();
}

/// The ack of a command, OK 0, and of anything else, ERR 1 (VIRTIO 1.2, 5.1.6.5).
pub fn ack_for(command: &Option<Command>) -> u8
    ensures { result ≡ ack_for command.now }
{
    match command {
        Some(_) => 0,
        None => 1,
    }
}
