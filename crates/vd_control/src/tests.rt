ghost use Rattle.vd_control.specs.Settings.{HasPairs};

use super::*;
use std::process::Abort;
use std::test::*;

const MAC: [u8; 6] = [0x52, 0x54, 0x00, 0x12, 0x34, 0x56];

/// Each command of the queue, just valid and just invalid; each kind of unknown one stands after a good one.
static CASES: [(&[u8], Option<Command>); 34] = [
    (&[0, 0, 1], Some(Command::Rx(0, true))),
    (&[0, 5, 0], Some(Command::Rx(5, false))),
    (&[0, 6, 1], None),
    (&[0, 0], None),
    (&[0, 0, 1, 0], None),
    (
        &[1, 1, 0x52, 0x54, 0, 0x12, 0x34, 0x56],
        Some(Command::Mac(MAC)),
    ),
    (&[1, 0, 0x52, 0x54, 0, 0x12, 0x34, 0x56], None),
    (&[1, 1, 0x52, 0x54, 0, 0x12, 0x34], None),
    (&[1, 1, 0x52, 0x54, 0, 0x12, 0x34, 0x56, 0], None),
    (&[2, 0, 7, 0], Some(Command::VlanAdd(7))),
    (&[2, 0, 0xff, 0x0f], Some(Command::VlanAdd(4095))),
    (&[2, 0, 0x00, 0x10], None),
    (&[2, 0, 7], None),
    (&[2, 0, 7, 0, 0], None),
    (&[2, 1, 8, 0], Some(Command::VlanDel(8))),
    (&[2, 1, 0xff, 0x0f], Some(Command::VlanDel(4095))),
    (&[2, 1, 0x00, 0x10], None),
    (&[2, 2, 7, 0], None),
    (&[4, 0, 0, 0], None),
    (&[4, 0, 1, 0], Some(Command::Pairs(1))),
    (&[4, 0, 0x00, 0x80], Some(Command::Pairs(32768))),
    (&[4, 0, 0x01, 0x80], None),
    (&[4, 0, 1], None),
    (&[4, 0, 1, 0, 0], None),
    (&[4, 1, 1, 0], None),
    (
        &[5, 0, 1, 2, 3, 4, 5, 6, 7, 8],
        Some(Command::Offloads(0x0807_0605_0403_0201)),
    ),
    (&[5, 0, 1, 2, 3, 4, 5, 6, 7], None),
    (&[5, 0, 1, 2, 3, 4, 5, 6, 7, 8, 9], None),
    (&[5, 1, 1, 2, 3, 4, 5, 6, 7, 8], None),
    (&[0, 0, 1], Some(Command::Rx(0, true))),
    (&[3, 0, 1], None),
    (&[6, 0, 1], None),
    (&[9, 0, 1], None),
    (&[], None),
];

#[test]
fn reads_each_command_and_writes_it_back(rt: HostRuntime) -> Result<(), Fail> {
    for (bytes, want) in &CASES {
        let got = Command::read(bytes);
        assert_eq!(rt; got, *want, "at {bytes:?}");
        if let Some(command) = got {
            assert!(rt; command.write().as_slice() == *bytes);
        }
    }
    assert_eq!(rt; Command::read(&[0, 2, 255]), Some(Command::Rx(2, true)));
    Ok(())
}

/// The settings that byte strings leave.
fn settings_of(strings: &[&[u8]]) -> Settings
    ensures { HasPairs result }
{
    let mut settings = Settings::new();
    for bytes in strings {
        if let Some(command) = Command::read(bytes) {
            settings.apply(&command);
        }
    }
    settings
}

/// Asserts that command `i` of the replay list is this one.
fn assert_listed(rt: &impl Abort, s: &Settings, i: u32, want: Command)
    requires { HasPairs s.now }
{
    assert!(rt; i < replay_len(s));
    assert_eq!(rt; replay_at(s, i), want, "at {i}");
}

#[test]
fn valid_commands_set_and_the_list_sets_again(rt: HostRuntime) -> Result<(), Fail> {
    let s = settings_of(&[
        &[1, 1, 0x52, 0x54, 0, 0x12, 0x34, 0x56],
        &[2, 0, 7, 0],
        &[2, 0, 8, 0],
        &[2, 1, 8, 0],
        &[9, 0, 1],
    ]);
    assert_eq!(rt; s.mac, MAC);
    assert_eq!(rt; s.vlans[0], 0x80);
    assert_eq!(rt; s.pairs, 1);
    assert_eq!(rt; replay_len(&s), 2);
    assert_listed(&rt, &s, 0, Command::Mac(MAC));
    assert_listed(&rt, &s, 1, Command::VlanAdd(7));
    replay_comes_back(&s);
    Ok(())
}

#[test]
fn the_longest_list_has_every_command(rt: HostRuntime) -> Result<(), Fail> {
    let s = Settings {
        rx: [true; 6],
        mac: MAC,
        vlans: [u64::MAX; 64],
        pairs: 2,
        offloads: 1,
    };
    assert_eq!(rt; replay_len(&s), 4105);
    for (i, want) in [
        (0, Command::Rx(0, true)),
        (5, Command::Rx(5, true)),
        (6, Command::Mac(MAC)),
        (7, Command::VlanAdd(0)),
        (70, Command::VlanAdd(63)),
        (71, Command::VlanAdd(64)),
        (4102, Command::VlanAdd(4095)),
        (4103, Command::Pairs(2)),
        (4104, Command::Offloads(1)),
    ] {
        assert_listed(&rt, &s, i, want);
    }
    assert_eq!(rt; replay_len(&Settings::new()), 0);
    Ok(())
}
