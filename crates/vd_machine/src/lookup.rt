//! What stands where in a document.
ghost use Rattle.std.specs.Prelude.{◌≡◌, option_map, option_copied, map};
ghost use Rattle.toml.specs.Data.{get_member};
ghost use Rattle.toml.specs.View.{view, table_view};
ghost use Rattle.vd_machine.specs.Lookup.{natural, natural_at, text_at, natural_or, items_at, list_in, has};

use toml::{Table, Value};

/// The value at a key.
pub fn member<'a>(table: &'a Table, key: &str) -> Option<&'a Value>
    ensures { option_map (λ v. view v.now) result ≡ get_member key.now (table_view table.now) }
{
    table.get(key)
}

pub fn has(table: &Table, key: &str) -> bool
    ensures { result ≡ has key.now (table_view table.now) }
{
    member(table, key).is_some()
}

fn natural(number: i64) -> Option<u64>
    ensures { result ≡ natural number }
{
    if number < 0 {
        None
    } else {
        Some(number as u64)
    }
}

/// The whole number at a key, where it is not negative.
pub fn natural_at(table: &Table, key: &str) -> Option<u64>
    ensures { result ≡ natural_at key.now (table_view table.now) }
{
    match member(table, key) {
        None => None,
        Some(value) => match value.as_integer() {
            None => None,
            Some(number) => natural(number),
        },
    }
}

/// That number, and `default` where the key is missing.
pub fn natural_or(default: u64, table: &Table, key: &str) -> Option<u64>
    ensures { result ≡ natural_or default key.now (table_view table.now) }
{
    if has(table, key) {
        natural_at(table, key)
    } else {
        Some(default)
    }
}

/// The text at a key.
pub fn text_at<'a>(table: &'a Table, key: &str) -> Option<&'a str>
    ensures { option_copied result ≡ text_at key.now (table_view table.now) }
{
    match member(table, key) {
        None => None,
        Some(value) => value.as_str(),
    }
}

/// The items of a value that is an array.
pub fn list_in(value: &Value) -> Option<&[Value]>
    ensures { option_map (λ vs. map view vs.now) result ≡ list_in (view value.now) }
{
    match value.as_array() {
        None => None,
        Some(items) => Some(items.as_slice()),
    }
}

/// The items of the array at a key, and none where no array is there.
pub fn items_at<'a>(table: &'a Table, key: &str) -> &'a [Value]
    ensures { map view result.now ≡ items_at key.now (table_view table.now) }
{
    match member(table, key) {
        None => &[],
        Some(value) => match list_in(value) {
            None => &[],
            Some(items) => items,
        },
    }
}
