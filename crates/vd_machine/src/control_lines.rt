//! Printing the control queue of a machine file.
ghost use Rattle.std.specs.Prelude.{◌≡◌, ◌++◌, codes, map, OnOk};
ghost use Rattle.vd_machine.specs.Canon.{more_items, items_text, list_text, line, lines_text, command_item, control_entries};

use crate::listing::push_text;
use arrayvec::ArrayVec;
use std::alloc::AllocError;
use vd_model::Script;
use vd_text::print_command;

fn print_quoted(command: &ArrayVec<u8, 10>, out: &mut Vec<u8>) -> Result<(), AllocError>
    ensures { OnOk result (out.new.items ≡ out.old.items ++ command_item command.now) }
{
    out.push(b'"')?;
    print_command(command.as_slice(), out)?;
    out.push(b'"')?;
    Ok(())
}

fn print_more_commands(commands: &[ArrayVec<u8, 10>], out: &mut Vec<u8>) -> Result<(), AllocError>
    ensures { OnOk result (out.new.items ≡ out.old.items ++ more_items (map command_item commands.now)) }
{
    for command in commands {
        push_text(", ", out)?;
        print_quoted(command, out)?;
    }
    Ok(())
}

fn print_commands(commands: &[ArrayVec<u8, 10>], out: &mut Vec<u8>) -> Result<(), AllocError>
    ensures { OnOk result (out.new.items ≡ out.old.items ++ items_text (map command_item commands.now)) }
{
    match commands {
        [] => Ok(()),
        [first, rest @ ..] => {
            print_quoted(first, out)?;
            print_more_commands(rest, out)
        }
    }
}

fn print_command_line(commands: &[ArrayVec<u8, 10>], out: &mut Vec<u8>) -> Result<(), AllocError>
    ensures { OnOk result (out.new.items ≡ out.old.items ++ line (codes "commands") (list_text (map command_item commands.now))) }
{
    push_text("commands = [", out)?;
    print_commands(commands, out)?;
    push_text("]\n", out)
}

/// Appends the line of the control queue, where there is one.
pub fn print_control(control: &Option<Script>, out: &mut Vec<u8>) -> Result<(), AllocError>
    ensures { OnOk result (out.new.items ≡ out.old.items ++ lines_text (control_entries control.now)) }
{
    match control {
        None => Ok(()),
        Some(script) => print_command_line(script.commands.as_slice(), out),
    }
}
