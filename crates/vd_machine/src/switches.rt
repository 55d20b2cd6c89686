//! The mode at the start, and the switches.
ghost use Rattle.std.specs.Prelude.{◌≡◌, map, option_map, IfOk, IfSome, true};
ghost use Rattle.std.specs.List.{list_all};
ghost use Rattle.toml.specs.View.{view, table_view};
ghost use Rattle.vd_text.specs.Grammar.{all_some};
ghost use Rattle.vd_machine.specs.Switches.{mode_of, start_of, to_of, after_in, to_in, switch_of, are_ascending, are_in_order, is_switch, are_switches, switches_of};

use crate::lookup::{has, items_at, natural_at, text_at};
use crate::{Switch, To};
use sqlite_items::Items;
use std::alloc::{AllocError, Global};
use toml::{Table, Value};
use vd_model::Mode;

/// How many switches there may be.
pub const MOST_SWITCHES: usize = 16;

fn mode_of(name: &str) -> Option<Mode>
    ensures { result ≡ mode_of name.now }
{
    match name {
        "pass" => Some(Mode::Pass),
        "shadow" => Some(Mode::Shadow),
        _ => None,
    }
}

/// The mode at the start, where there is such a mode; a missing one is pass.
#[tactic(auto, unfolding(crate::specs::Switches::start_of))]
pub fn start_of(file: &Table) -> Option<Mode>
    ensures { result ≡ start_of (table_view file.now) }
{
    if !has(file, "start") {
        return Some(Mode::Pass);
    }
    match text_at(file, "start") {
        None => None,
        Some(name) => mode_of(name),
    }
}

fn to_of(name: &str) -> Option<To>
    ensures { result ≡ to_of name.now }
{
    match name {
        "pass" => Some(To::Pass),
        "shadow" => Some(To::Shadow),
        "renew" => Some(To::Renew),
        _ => None,
    }
}

fn to_in(table: &Table) -> Option<To>
    ensures { result ≡ to_in (table_view table.now) }
{
    match text_at(table, "to") {
        None => None,
        Some(name) => to_of(name),
    }
}

fn after_in(table: &Table) -> Option<u32>
    ensures { result ≡ after_in (table_view table.now) }
{
    match natural_at(table, "after") {
        None => None,
        Some(after) => {
            if after <= 0xffff_ffff {
                Some(after as u32)
            } else {
                None
            }
        }
    }
}

fn switch_of(value: &Value) -> Option<Switch>
    ensures value { result ≡ switch_of (view value.now) }
    ensures lawful { IfSome result (λ s. is_switch s ≡ true) }
{
    match value.as_table() {
        None => None,
        Some(table) => match after_in(table) {
            None => None,
            Some(after) => match to_in(table) {
                None => None,
                Some(to) => Some(Switch { after, to }),
            },
        },
    }
}

fn all_switches(alloc: Global, values: &[Value]) -> Result<Option<Vec<Switch>>, AllocError>
    ensures value { IfOk result (λ o. option_map (λ v. v.items) o ≡ all_some (map switch_of (map view values.now))) }
    ensures lawful { IfOk result (λ o. IfSome o (λ v. list_all is_switch v.items ≡ true)) }
{
    let mut found = Vec::new(alloc);
    for value in values {
        match switch_of(value) {
            None => return Ok(None),
            Some(switch) => found.push(switch)?,
        }
    }
    Ok(Some(found))
}

fn are_ascending(switches: &[Switch]) -> bool
    ensures { result ≡ are_ascending 0 switches.now }
{
    let mut last = 0;
    for switch in switches {
        if switch.after < last {
            return false;
        }
        last = switch.after;
    }
    true
}

fn are_in_order(switches: &[Switch]) -> bool
    ensures { result ≡ are_in_order switches.now }
{
    switches.len() <= MOST_SWITCHES && are_ascending(switches)
}

/// The switches, where they are lawful.
#[tactic(auto, unfolding(crate::specs::Switches::switches_of))]
pub fn switches_of(alloc: Global, file: &Table) -> Result<Option<Items<Switch>>, AllocError>
    ensures value { IfOk result (λ o. o ≡ switches_of (table_view file.now)) }
    ensures lawful { IfOk result (λ o. IfSome o (λ ss. are_switches ss ≡ true)) }
{
    match all_switches(alloc, items_at(file, "switches"))? {
        None => Ok(None),
        Some(switches) => {
            if are_in_order(&switches) {
                Ok(Some(Items::from_vec(switches)))
            } else {
                Ok(None)
            }
        }
    }
}
