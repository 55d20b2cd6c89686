//! Which keys the tables among the switches have, and of which types their values are.
ghost use Rattle.std.specs.Prelude.{◌≡◌, codes, string_bytes};
ghost use Rattle.std.specs.BTreeMap.{keys};
ghost use Rattle.std.specs.List.{list_all};
ghost use Rattle.toml.specs.View.{view, table_view};
ghost use Rattle.vd_machine.specs.Lookup.{items_at};
ghost use Rattle.vd_machine.specs.Keys.{is_switch_key, switch_has_known_keys, switch_is_complete, if_table};
ghost use Rattle.vd_machine.specs.Types.{switch_is_typed, switches_are_typed};

use crate::lookup::{has, items_at};
use crate::types::{is_number_at, is_text_at};
use toml::{Table, Value};

fn is_switch_key(key: &str) -> bool
    ensures { result ≡ is_switch_key key.now }
{
    key == "after" || key == "to"
}

fn all_switch_keys(table: &Table) -> bool
    ensures { result ≡ list_all (λ k. is_switch_key (string_bytes k)) (keys table.now) }
{
    table.keys().all(|key| is_switch_key(key.as_str()))
}

fn table_has_known_keys(table: &Table) -> bool
    ensures { result ≡ switch_has_known_keys (table_view table.now) }
{
    all_switch_keys(table)
}

fn switch_has_known_keys(switch: &Value) -> bool
    ensures { result ≡ if_table switch_has_known_keys (view switch.now) }
{
    match switch.as_table() {
        None => true,
        Some(table) => table_has_known_keys(table),
    }
}

fn all_have_known_keys(switches: &[Value]) -> bool
    ensures { result ≡ list_all (λ v. if_table switch_has_known_keys (view v)) switches.now }
{
    switches.iter().all(|switch| switch_has_known_keys(switch))
}

/// Whether no switch has another key.
pub fn switches_have_known_keys(file: &Table) -> bool
    ensures { result ≡ list_all (if_table switch_has_known_keys) (items_at (codes "switches") (table_view file.now)) }
{
    all_have_known_keys(items_at(file, "switches"))
}

fn switch_is_complete(switch: &Value) -> bool
    ensures { result ≡ if_table switch_is_complete (view switch.now) }
{
    match switch.as_table() {
        None => true,
        Some(table) => has(table, "after") && has(table, "to"),
    }
}

fn all_are_complete(switches: &[Value]) -> bool
    ensures { result ≡ list_all (λ v. if_table switch_is_complete (view v)) switches.now }
{
    switches.iter().all(|switch| switch_is_complete(switch))
}

/// Whether no switch lacks a key.
pub fn switches_are_complete(file: &Table) -> bool
    ensures { result ≡ list_all (if_table switch_is_complete) (items_at (codes "switches") (table_view file.now)) }
{
    all_are_complete(items_at(file, "switches"))
}

fn switch_is_typed(switch: &Value) -> bool
    ensures { result ≡ switch_is_typed (view switch.now) }
{
    match switch.as_table() {
        None => false,
        Some(table) => is_number_at(table, "after") && is_text_at(table, "to"),
    }
}

fn all_are_typed(switches: &[Value]) -> bool
    ensures { result ≡ list_all (λ v. switch_is_typed (view v)) switches.now }
{
    switches.iter().all(|switch| switch_is_typed(switch))
}

/// Whether each switch is a table of values of their types.
pub fn switches_are_typed(file: &Table) -> bool
    ensures { result ≡ switches_are_typed (table_view file.now) }
{
    all_are_typed(items_at(file, "switches"))
}
