//! The lines of a control queue, to the letter.
use crate::control_line::{command_line, settings_line, vlan_line};
use std::test::*;
use vd_control::Settings;

#[test]
fn lines_of_a_control_queue(rt: HostRuntime) {
    let s = Settings {
        rx: [false; 6],
        mac: [0x52, 0x54, 0x00, 0x12, 0x34, 0x56],
        vlans: [0; 64],
        pairs: 1,
        offloads: 0,
    };
    assert_eq!(rt; command_line(0, 0).as_str(), "command 0 0\n");
    assert_eq!(rt; command_line(4, 1).as_str(), "command 4 1\n");
    assert_eq!(rt;
        settings_line(&s).as_str(),
        "settings rx=000000 mac=525400123456 pairs=1 offloads=0\n"
    );
    assert_eq!(rt; vlan_line(7).as_str(), "vlan 7\n");
}
