//! Which keys the tables of a document have.
ghost use Rattle.std.specs.Prelude.{◌≡◌, codes, string_bytes};
ghost use Rattle.std.specs.BTreeMap.{keys};
ghost use Rattle.std.specs.List.{list_all};
ghost use Rattle.toml.specs.View.{view, table_view};
ghost use Rattle.vd_machine.specs.Lookup.{names_of, items_at};
ghost use Rattle.vd_machine.specs.Keys.{is_file_key, is_region_key, region_has_known_keys, region_is_complete, if_table, known_keys, complete, has_file_keys};

use crate::lookup::{has, items_at};
use crate::switch_tables::{switches_are_complete, switches_have_known_keys};
use toml::{Table, Value};

fn is_file_key(key: &str) -> bool
    ensures { result ≡ is_file_key key.now }
{
    key == "layout"
        || key == "size"
        || key == "features"
        || key == "window"
        || key == "start"
        || key == "iova_first"
        || key == "iova_last"
        || key == "regions"
        || key == "queues"
        || key == "switches"
}

fn is_region_key(key: &str) -> bool
    ensures { result ≡ is_region_key key.now }
{
    key == "addr" || key == "size"
}

fn all_file_keys(file: &Table) -> bool
    ensures { result ≡ list_all (λ k. is_file_key (string_bytes k)) (keys file.now) }
{
    file.keys().all(|key| is_file_key(key.as_str()))
}

fn all_region_keys(table: &Table) -> bool
    ensures { result ≡ list_all (λ k. is_region_key (string_bytes k)) (keys table.now) }
{
    table.keys().all(|key| is_region_key(key.as_str()))
}

fn file_has_known_keys(file: &Table) -> bool
    ensures { result ≡ list_all is_file_key (names_of (table_view file.now)) }
{
    all_file_keys(file)
}

fn table_has_known_keys(table: &Table) -> bool
    ensures { result ≡ region_has_known_keys (table_view table.now) }
{
    all_region_keys(table)
}

fn region_has_known_keys(region: &Value) -> bool
    ensures { result ≡ if_table region_has_known_keys (view region.now) }
{
    match region.as_table() {
        None => true,
        Some(table) => table_has_known_keys(table),
    }
}

fn all_have_known_keys(regions: &[Value]) -> bool
    ensures { result ≡ list_all (λ v. if_table region_has_known_keys (view v)) regions.now }
{
    regions.iter().all(|region| region_has_known_keys(region))
}

fn regions_have_known_keys(file: &Table) -> bool
    ensures { result ≡ list_all (if_table region_has_known_keys) (items_at (codes "regions") (table_view file.now)) }
{
    all_have_known_keys(items_at(file, "regions"))
}

/// Whether no table has another key.
#[tactic(auto, unfolding(crate::specs::Keys::known_keys))]
pub fn known_keys(file: &Table) -> bool
    ensures { result ≡ known_keys (table_view file.now) }
{
    file_has_known_keys(file) && regions_have_known_keys(file) && switches_have_known_keys(file)
}

fn region_is_complete(region: &Value) -> bool
    ensures { result ≡ if_table region_is_complete (view region.now) }
{
    match region.as_table() {
        None => true,
        Some(table) => has(table, "addr") && has(table, "size"),
    }
}

fn all_are_complete(regions: &[Value]) -> bool
    ensures { result ≡ list_all (λ v. if_table region_is_complete (view v)) regions.now }
{
    regions.iter().all(|region| region_is_complete(region))
}

fn regions_are_complete(file: &Table) -> bool
    ensures { result ≡ list_all (if_table region_is_complete) (items_at (codes "regions") (table_view file.now)) }
{
    all_are_complete(items_at(file, "regions"))
}

fn has_file_keys(file: &Table) -> bool
    ensures { result ≡ has_file_keys (table_view file.now) }
{
    has(file, "layout") && has(file, "size") && has(file, "regions") && has(file, "queues")
}

/// Whether no required key is missing.
#[tactic(auto, unfolding(crate::specs::Keys::complete))]
pub fn complete(file: &Table) -> bool
    ensures { result ≡ complete (table_view file.now) }
{
    has_file_keys(file) && regions_are_complete(file) && switches_are_complete(file)
}
