//! The lines of a control queue, each made on the stack.
ghost use Rattle.std.specs.Prelude.{◌≡◌, ◌+◌, ◌≤◌, ◌<◌, ◌++◌, [], ◌∷◌, length, flat_map, slice_index};
ghost use Rattle.arrayvec.specs.ArrayString.{array_string_len};
ghost use Rattle.hex.specs.Hex.{encode_lower, lower_digits};
ghost use Rattle.vd_runner.specs.CommandReport.{command_line, settings_line, vlan_line, flag_text};

use crate::line::{Line, push_number, push_text};
use vd_control::Settings;

/// The digits of a number below 16.
const DIGITS: [&str; 16] = [
    "0", "1", "2", "3", "4", "5", "6", "7", "8", "9", "a", "b", "c", "d", "e", "f",
];

/// A command's number and its ack.
#[tactic(auto, unfolding(crate::specs::CommandReport::command_line))]
pub fn command_line(command: u64, ack: u8) -> Line
    ensures { result.bytes ≡ command_line command ack }
{
    let mut line = Line::new();
    push_text(&mut line, "command ");
    push_number(&mut line, command);
    push_text(&mut line, " ");
    push_number(&mut line, ack as u64);
    push_text(&mut line, "\n");
    line
}

fn push_flag(line: &mut Line, on: bool)
    requires { array_string_len line.old + 1 ≤ 120 }
    ensures bytes { line.new.bytes ≡ line.old.bytes ++ flag_text on }
    ensures len { array_string_len line.new ≡ array_string_len line.old + 1 }
{
    if on {
        push_text(line, "1");
    } else {
        push_text(line, "0");
    }
}

/// A digit for each receive flag.
fn push_flags(line: &mut Line, flags: &[bool; 6])
    requires { array_string_len line.old + 6 ≤ 120 }
    ensures bytes { line.new.bytes ≡ line.old.bytes ++ flat_map flag_text flags.now }
    ensures len { array_string_len line.new ≡ array_string_len line.old + 6 }
{
    for on in flags {
        push_flag(line, *on);
    }
}

/// The digit of a number below 16.
fn push_digit(line: &mut Line, number: u8)
    requires small { number < 16 }
    requires room { array_string_len line.old + 1 ≤ 120 }
    ensures bytes { line.new.bytes ≡ line.old.bytes ++ slice_index lower_digits number ∷ [] }
    ensures len { array_string_len line.new ≡ array_string_len line.old + 1 }
{
    push_text(line, DIGITS[number as usize]);
}

/// Two digits for each byte of an address.
fn push_address(line: &mut Line, mac: &[u8; 6])
    requires { array_string_len line.old + 12 ≤ 120 }
    ensures bytes { line.new.bytes ≡ line.old.bytes ++ encode_lower mac.now }
    ensures len { array_string_len line.new ≡ array_string_len line.old + 12 }
{
    for byte in mac {
        push_digit(line, *byte / 16);
        push_digit(line, *byte % 16);
    }
}

/// The receive flags, the address, the pairs of queues and the offloads.
#[tactic(auto, unfolding(crate::specs::CommandReport::settings_line))]
pub fn settings_line(s: &Settings) -> Line
    ensures { result.bytes ≡ settings_line s.now }
{
    let mut line = Line::new();
    push_text(&mut line, "settings rx=");
    push_flags(&mut line, &s.rx);
    push_text(&mut line, " mac=");
    push_address(&mut line, &s.mac);
    push_text(&mut line, " pairs=");
    push_number(&mut line, s.pairs as u64);
    push_text(&mut line, " offloads=");
    push_number(&mut line, s.offloads);
    push_text(&mut line, "\n");
    line
}

/// A VLAN that is set.
#[tactic(auto, unfolding(crate::specs::CommandReport::vlan_line))]
pub fn vlan_line(vlan: u64) -> Line
    ensures { result.bytes ≡ vlan_line vlan }
{
    let mut line = Line::new();
    push_text(&mut line, "vlan ");
    push_number(&mut line, vlan);
    push_text(&mut line, "\n");
    line
}
