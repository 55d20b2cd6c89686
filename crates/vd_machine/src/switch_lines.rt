//! Printing the mode at the start and the switches.
ghost use Rattle.std.specs.Prelude.{◌≡◌, ◌++◌, codes, map, OnOk};
ghost use Rattle.vd_machine.specs.Canon.{line, quoted, more_items, items_text, list_text, mode_name, to_name, switch_text};

use crate::listing::{push_number, push_text};
use crate::{Switch, To};
use std::alloc::AllocError;
use vd_model::Mode;

/// The line of the mode at the start.
pub fn start_line(start: Mode) -> &'static str
    ensures { result.now ≡ line (codes "start") (quoted (mode_name start)) }
{
    match start {
        Mode::Pass => "start = \"pass\"\n",
        Mode::Shadow => "start = \"shadow\"\n",
    }
}

fn to_name(to: To) -> &'static str
    ensures { result.now ≡ to_name to }
{
    match to {
        To::Pass => "pass",
        To::Shadow => "shadow",
        To::Renew => "renew",
    }
}

fn print_switch(switch: &Switch, out: &mut Vec<u8>) -> Result<(), AllocError>
    ensures { OnOk result (out.new.items ≡ out.old.items ++ switch_text switch.now) }
{
    push_text("{ after = ", out)?;
    push_number(switch.after as u64, out)?;
    push_text(", to = \"", out)?;
    push_text(to_name(switch.to), out)?;
    push_text("\" }", out)
}

fn print_more_switches(switches: &[Switch], out: &mut Vec<u8>) -> Result<(), AllocError>
    ensures { OnOk result (out.new.items ≡ out.old.items ++ more_items (map switch_text switches.now)) }
{
    for switch in switches {
        push_text(", ", out)?;
        print_switch(switch, out)?;
    }
    Ok(())
}

fn print_switches(switches: &[Switch], out: &mut Vec<u8>) -> Result<(), AllocError>
    ensures { OnOk result (out.new.items ≡ out.old.items ++ items_text (map switch_text switches.now)) }
{
    match switches {
        [] => Ok(()),
        [first, rest @ ..] => {
            print_switch(first, out)?;
            print_more_switches(rest, out)
        }
    }
}

/// Appends the line of the switches.
pub fn print_switch_line(switches: &[Switch], out: &mut Vec<u8>) -> Result<(), AllocError>
    ensures { OnOk result (out.new.items ≡ out.old.items ++ line (codes "switches") (list_text (map switch_text switches.now))) }
{
    push_text("switches = [", out)?;
    print_switches(switches, out)?;
    push_text("]\n", out)
}
