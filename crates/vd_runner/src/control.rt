//! Writing what the report says of a control queue, a line at a time.
ghost use Rattle.std.specs.Prelude.{◌≡◌, ◌≤◌, ◌++◌, Bool, OnOk, OnErr, flat_map, length};
ghost use Rattle.std.specs.Io.KnownBytes.{Appends};
ghost use Rattle.vd_bus.specs.GuestCommands.{commands};
ghost use Rattle.vd_control.specs.Settings.{has_vlan, passing};
ghost use Rattle.vd_play.specs.Commands.{AreAnswered};
ghost use Rattle.vd_stream.specs.Causes.{HasCause};
ghost use Rattle.vd_stream.specs.Sinks.{AppendsFront};
ghost use Rattle.vd_runner.specs.CommandReport.{command_lines, settings_lines, vlan_line};

use crate::acks::place_of;
use crate::control_line::{command_line, settings_line, vlan_line};
use crate::writing::put_line;
use vd_control::Settings;
use vd_model::{Return, Script};
use vd_stream::{Failed, Sink};

/// Writes a line for each command, with the ack that came back for it.
fn put_commands<K: Sink>(script: &Script, list: &[Return], sink: &mut K) -> Result<(), Failed>
    requires answered { (in_order : Bool) × AreAnswered in_order (commands script.now) list.now }
    ensures ok { OnOk result (Appends (K.held sink.old) (K.held sink.new) (command_lines 0 (commands script.now))) }
    ensures err { OnErr result (AppendsFront (K.held sink.old) (K.held sink.new) (command_lines 0 (commands script.now))) }
    ensures cause { HasCause (K.faults sink.old) (K.faults sink.new) result }
{
    let mut start = 0;
    for command in 0..script.commands.len() {
        let place = place_of(list, command as u64, start);
        match put_line(command_line(command as u64, list[place].ack), sink) {
            Ok(()) => {}
            Err(Failed) => return Err(Failed),
        }
        start = place + 1;
    }
    Ok(())
}

/// Whether a VLAN is set.
fn has_vlan(vlans: &[u64; 64], vlan: u16) -> bool
    requires { vlan ≤ 4095 }
    ensures { result ≡ has_vlan vlans.now vlan }
{
    (vlans[vlan as usize / 64] >> (vlan % 64)) & 1 == 1
}

/// Writes a line for each VLAN that is set, ascending.
fn put_vlans<K: Sink>(vlans: &[u64; 64], sink: &mut K) -> Result<(), Failed>
    ensures ok { OnOk result (Appends (K.held sink.old) (K.held sink.new) (flat_map vlan_line (passing (has_vlan vlans.now) 4096))) }
    ensures err { OnErr result (AppendsFront (K.held sink.old) (K.held sink.new) (flat_map vlan_line (passing (has_vlan vlans.now) 4096))) }
    ensures cause { HasCause (K.faults sink.old) (K.faults sink.new) result }
{
    for vlan in 0..4096u16 {
        if has_vlan(vlans, vlan) {
            match put_line(vlan_line(vlan as u64), sink) {
                Ok(()) => {}
                Err(Failed) => return Err(Failed),
            }
        }
    }
    Ok(())
}

/// Writes what is set.
fn put_settings<K: Sink>(s: &Settings, sink: &mut K) -> Result<(), Failed>
    ensures ok { OnOk result (Appends (K.held sink.old) (K.held sink.new) (settings_lines s.now)) }
    ensures err { OnErr result (AppendsFront (K.held sink.old) (K.held sink.new) (settings_lines s.now)) }
    ensures cause { HasCause (K.faults sink.old) (K.faults sink.new) result }
{
    match put_line(settings_line(s), sink) {
        Ok(()) => {}
        Err(Failed) => return Err(Failed),
    }
    match put_vlans(&s.vlans, sink) {
        Ok(()) => Ok(()),
        Err(Failed) => Err(Failed),
    }
}

/// Writes the acks of the commands, by what came back to the guest, and what the device has set.
pub fn put_control<K: Sink>(
    script: &Script,
    list: &[Return],
    s: &Settings,
    sink: &mut K,
) -> Result<(), Failed>
    requires answered { (in_order : Bool) × AreAnswered in_order (commands script.now) list.now }
    ensures ok { OnOk result (Appends (K.held sink.old) (K.held sink.new)
        (command_lines 0 (commands script.now) ++ settings_lines s.now)) }
    ensures err { OnErr result (AppendsFront (K.held sink.old) (K.held sink.new)
        (command_lines 0 (commands script.now) ++ settings_lines s.now)) }
    ensures cause { HasCause (K.faults sink.old) (K.faults sink.new) result }
{
    match put_commands(script, list, sink) {
        Ok(()) => {}
        Err(Failed) => return Err(Failed),
    }
    match put_settings(s, sink) {
        Ok(()) => Ok(()),
        Err(Failed) => Err(Failed),
    }
}
