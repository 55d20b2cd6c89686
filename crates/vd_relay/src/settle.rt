//! The settings after an ack, by the order of the commands: a command that sets what a later one has set already changes nothing.
ghost use Rattle.std.specs.Prelude.{◌≡◌, ◌≤◌, ◌&&◌, nat_lt, ℕ, Some, IfSome, length};
ghost use Rattle.vd_control.specs.Commands.{IsCommand, command};
ghost use Rattle.vd_control.specs.Settings.{HasPairs};
ghost use Rattle.vd_table.specs.Rows.{row};
ghost use Rattle.vd_relay.specs.Settling.{sets_same, are_same, kept_bytes, acknowledged, marked, AreMarked, AreFew};

use vd_commands::{Words, bytes_of};
use vd_control::{Command, Settings};
use vd_table::{Command as Kept, Rows};

/// Whether both set the same: one receive flag, the address, one VLAN, the pairs, or the offloads.
fn sets_same(earlier: &Command, later: &Command) -> bool
    ensures { result ≡ sets_same earlier.now later.now }
{
    match (*earlier, *later) {
        (Command::Rx(flag, _), Command::Rx(other, _)) => flag == other,
        (Command::Mac(_), Command::Mac(_)) => true,
        (Command::VlanAdd(vlan), Command::VlanAdd(other) | Command::VlanDel(other)) => vlan
            == other,
        (Command::VlanDel(vlan), Command::VlanAdd(other) | Command::VlanDel(other)) => vlan
            == other,
        (Command::Pairs(_), Command::Pairs(_)) => true,
        (Command::Offloads(_), Command::Offloads(_)) => true,
        _ => false,
    }
}

/// The command that is kept, where its bytes are one.
fn kept_command(kept: &Kept) -> Option<Command>
    requires { kept.now.count ≤ 10 }
    ensures value { result ≡ command (kept_bytes kept.now) }
    ensures lawful { IfSome result IsCommand }
{
    let words = Words {
        first: kept.first,
        second: kept.second,
    };
    Command::read(bytes_of(kept.count, words).as_slice())
}

/// Whether a command that is kept is earlier than the one of this number, and sets the same.
fn comes_late(kept: &Kept, number: u32, later: &Command) -> bool
    requires { kept.now.count ≤ 10 }
    ensures { result ≡ (nat_lt kept.now.number number && are_same (command (kept_bytes kept.now)) (Some later.now)) }
{
    if kept.number >= number {
        return false;
    }
    match kept_command(kept) {
        Some(earlier) => sets_same(&earlier, later),
        None => false,
    }
}

/// Marks each earlier command that sets the same as late.
fn mark(commands: &mut Rows<Kept>, number: u32, later: &Command)
    requires few { AreFew commands.old }
    ensures sized { length commands.new ≡ length commands.old }
    ensures rows { (h : ℕ) → row commands.new h ≡ marked number (Some later.now) (row commands.old h) }
{
    for head in 0..commands.size() {
        if let Some(kept) = commands.get(head) {
            if comes_late(&kept, number, later) {
                commands.replace(head, Kept { late: true, ..kept });
            }
        }
    }
}

/// Changes the settings by a command that came back, and marks the others that stand on the shadow ring: where its ack is OK.
pub fn acknowledge(settings: &mut Settings, commands: &mut Rows<Kept>, kept: &Kept, ack: u64)
    requires few { kept.now.count ≤ 10 }
    requires each_few { AreFew commands.old }
    ensures value { settings.new ≡ acknowledged settings.old kept.now ack }
    ensures marked { AreMarked kept.now ack commands.old commands.new }
    ensures lawful { HasPairs settings.old → HasPairs settings.new }
{
    if ack % 256 == 0 {
        if let Some(command) = kept_command(kept) {
            if !kept.late {
                settings.apply(&command);
            }
            if commands.len() > 0 {
                mark(commands, kept.number, &command);
            }
        }
    }
}
