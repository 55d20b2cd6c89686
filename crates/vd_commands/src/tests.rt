//! The words of commands, and back.
ghost use Rattle.std.specs.Prelude.{◌≤◌, length};

use super::*;
use std::process::Abort;
use std::test::*;
use vd_control::Command;

/// The bytes stand in these two words, and come back from them.
fn check_words(rt: &impl Abort, bytes: &[u8], first: u64, second: u64)
    requires { length bytes.now ≤ 10 }
{
    let words = words_of(bytes);
    words_come_back(bytes);
    assert_eq!(rt; words, Words { first, second });
    let back = bytes_of(bytes.len() as u32, words);
    assert_eq!(rt; back.as_slice(), bytes);
}

/// A command of ten bytes needs both words; one of three bytes leaves the rest 0; no bytes leave both words 0.
#[test]
fn words_of_commands(rt: HostRuntime) {
    check_words(&rt, &[], 0, 0);
    check_words(&rt, &[0, 5, 1], 0x0001_0500, 0);
    check_words(
        &rt,
        &[1, 1, 0x52, 0x54, 0x00, 0x12, 0x34, 0x56],
        0x5634_1200_5452_0101,
        0,
    );
    check_words(
        &rt,
        &[5, 0, 1, 2, 3, 4, 5, 6, 7, 8],
        0x0605_0403_0201_0005,
        0x0807,
    );
}

/// Where the count is less than the bytes, the first of them come back.
#[test]
fn first_bytes(rt: HostRuntime) {
    let words = words_of(&[5, 0, 1, 2, 3, 4, 5, 6, 7, 8]);
    assert_eq!(rt; bytes_of(0, words).len(), 0);
    assert_eq!(rt; bytes_of(3, words).as_slice(), [5, 0, 1].as_slice());
    assert_eq!(rt;
        bytes_of(9, words).as_slice(),
        [5, 0, 1, 2, 3, 4, 5, 6, 7].as_slice()
    );
}

/// A command is answered 0, anything else 1.
#[test]
fn acks(rt: HostRuntime) {
    assert_eq!(rt; ack_for(&Some(Command::VlanAdd(7))), 0);
    assert_eq!(rt; ack_for(&None), 1);
}
