//! Of which types the values of a document are.
ghost use Rattle.std.specs.Prelude.{◌≡◌, codes};
ghost use Rattle.std.specs.List.{list_all};
ghost use Rattle.toml.specs.View.{view, table_view};
ghost use Rattle.vd_machine.specs.Lookup.{items_at};
ghost use Rattle.vd_machine.specs.Types.{typed, is_number_at, is_text_at, is_list_at, file_is_typed, features_are_typed, region_is_typed, regions_are_typed, is_text, queue_is_typed, queues_are_typed, commands_are_typed};

use crate::lookup::{items_at, list_in, member};
use crate::switch_tables::switches_are_typed;
use toml::{Table, Value};

/// Whether a whole number stands at a key, or nothing.
pub fn is_number_at(table: &Table, key: &str) -> bool
    ensures { result ≡ is_number_at key.now (table_view table.now) }
{
    match member(table, key) {
        None => true,
        Some(value) => value.is_integer(),
    }
}

/// Whether a text stands at a key, or nothing.
pub fn is_text_at(table: &Table, key: &str) -> bool
    ensures { result ≡ is_text_at key.now (table_view table.now) }
{
    match member(table, key) {
        None => true,
        Some(value) => value.is_str(),
    }
}

fn is_list_at(table: &Table, key: &str) -> bool
    ensures { result ≡ is_list_at key.now (table_view table.now) }
{
    match member(table, key) {
        None => true,
        Some(value) => value.is_array(),
    }
}

fn region_is_typed(region: &Value) -> bool
    ensures { result ≡ region_is_typed (view region.now) }
{
    match region.as_table() {
        None => false,
        Some(table) => is_number_at(table, "addr") && is_number_at(table, "size"),
    }
}

fn all_are_typed(regions: &[Value]) -> bool
    ensures { result ≡ list_all (λ v. region_is_typed (view v)) regions.now }
{
    regions.iter().all(|region| region_is_typed(region))
}

fn regions_are_typed(file: &Table) -> bool
    ensures { result ≡ regions_are_typed (table_view file.now) }
{
    all_are_typed(items_at(file, "regions"))
}

fn all_are_texts(values: &[Value]) -> bool
    ensures { result ≡ list_all (λ v. is_text (view v)) values.now }
{
    values.iter().all(|value| value.is_str())
}

fn queue_is_typed(queue: &Value) -> bool
    ensures { result ≡ queue_is_typed (view queue.now) }
{
    match list_in(queue) {
        None => false,
        Some(texts) => all_are_texts(texts),
    }
}

fn all_queues_are_typed(queues: &[Value]) -> bool
    ensures { result ≡ list_all (λ v. queue_is_typed (view v)) queues.now }
{
    queues.iter().all(|queue| queue_is_typed(queue))
}

fn queues_are_typed(file: &Table) -> bool
    ensures { result ≡ queues_are_typed (table_view file.now) }
{
    all_queues_are_typed(items_at(file, "queues"))
}

fn features_are_typed(file: &Table) -> bool
    ensures { result ≡ features_are_typed (table_view file.now) }
{
    all_are_texts(items_at(file, "features"))
}

fn commands_are_typed(file: &Table) -> bool
    ensures { result ≡ commands_are_typed (table_view file.now) }
{
    all_are_texts(items_at(file, "commands"))
}

fn file_is_typed(file: &Table) -> bool
    ensures { result ≡ file_is_typed (table_view file.now) }
{
    is_text_at(file, "layout")
        && is_number_at(file, "size")
        && is_list_at(file, "features")
        && is_number_at(file, "window")
        && is_text_at(file, "start")
        && is_number_at(file, "iova_first")
        && is_number_at(file, "iova_last")
        && is_list_at(file, "regions")
        && is_list_at(file, "queues")
        && is_list_at(file, "switches")
        && is_list_at(file, "commands")
}

/// Whether each value has its type.
#[tactic(auto, unfolding(crate::specs::Types::typed))]
pub fn typed(file: &Table) -> bool
    ensures { result ≡ typed (table_view file.now) }
{
    file_is_typed(file)
        && features_are_typed(file)
        && regions_are_typed(file)
        && queues_are_typed(file)
        && switches_are_typed(file)
        && commands_are_typed(file)
}
