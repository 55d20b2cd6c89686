//! The control queue: its command texts, and the script that these write.
ghost use Rattle.std.specs.Prelude.{◌≡◌, codes, map, option_map, length, IfOk, IfSome, true};
ghost use Rattle.std.specs.List.{list_all};
ghost use Rattle.toml.specs.View.{view, table_view};
ghost use Rattle.vd_text.specs.Grammar.{all_some};
ghost use Rattle.vd_machine.specs.Commands.{command_of, control_script, control_of, has_few_commands, is_lawful_command, is_lawful_control};

use crate::lookup::{has, items_at};
use arrayvec::ArrayVec;
use sqlite_items::Items;
use std::alloc::{AllocError, Global};
use toml::{Table, Value};
use vd_model::Script;
use vd_text::read_command;

/// How many commands there may be.
const MOST_COMMANDS: usize = 4_096;

/// Whether there are no more commands than there may be.
#[tactic(auto, unfolding(crate::specs::Commands::has_few_commands))]
pub fn has_few_commands(file: &Table) -> bool
    ensures { result ≡ has_few_commands (table_view file.now) }
{
    items_at(file, "commands").len() <= MOST_COMMANDS
}

fn command_of(value: &Value) -> Option<ArrayVec<u8, 10>>
    ensures value { result ≡ command_of (view value.now) }
    ensures lawful { IfSome result (λ c. is_lawful_command c ≡ true) }
{
    match value.as_str() {
        None => None,
        Some(text) => read_command(text.as_bytes()),
    }
}

fn all_commands(
    alloc: Global,
    values: &[Value],
) -> Result<Option<Vec<ArrayVec<u8, 10>>>, AllocError>
    ensures value { IfOk result (λ o. option_map (λ v. v.items) o ≡ all_some (map command_of (map view values.now))) }
    ensures lawful { IfOk result (λ o. IfSome o (λ v. list_all is_lawful_command v.items ≡ true)) }
    ensures count { IfOk result (λ o. IfSome o (λ v. length v.items ≡ length values.now)) }
{
    let mut found = Vec::with_capacity(alloc, values.len())?;
    for value in values {
        match command_of(value) {
            None => return Ok(None),
            Some(command) => found.push(command)?,
        }
    }
    Ok(Some(found))
}

fn script_in(alloc: Global, commands: Vec<ArrayVec<u8, 10>>) -> Script
    ensures { result ≡ control_script commands.items }
{
    Script {
        runs: Items::new(alloc),
        commands: Items::from_vec(commands),
    }
}

/// The control queue's script, where each text writes a command; there is none where the key is missing.
#[tactic(auto, unfolding(crate::specs::Commands::control_of, crate::specs::Commands::has_few_commands))]
pub fn control_of(alloc: Global, file: &Table) -> Result<Option<Option<Script>>, AllocError>
    requires few { has_few_commands (table_view file.now) ≡ true }
    ensures value { IfOk result (λ o. o ≡ control_of (table_view file.now)) }
    ensures lawful { IfOk result (λ o. IfSome o (λ c. is_lawful_control c ≡ true)) }
{
    if !has(file, "commands") {
        return Ok(Some(None));
    }
    match all_commands(alloc, items_at(file, "commands"))? {
        None => Ok(None),
        Some(commands) => Ok(Some(Some(script_in(alloc, commands)))),
    }
}
