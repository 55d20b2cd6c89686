//! The layout and the size of the rings, their features and the window.
ghost use Rattle.std.specs.Prelude.{◌≡◌, ◌<◌, ◌^◌, codes, count_by, map, IfSome, true, false};
ghost use Rattle.std.specs.Bool.{OnTrue};
ghost use Rattle.std.specs.List.{list_all};
ghost use Rattle.toml.specs.View.{view, table_view};
ghost use Rattle.vd_machine.specs.Rings.{layout, layout_of, is_power, is_lawful_size, size_of, is_named, is_feature, times_of, are_features, features_in, features_of, is_window, window_of};

use crate::lookup::{items_at, natural_at, natural_or, text_at};
use toml::{Table, Value};
use vd_model::Features;

/// How many places a ring may have.
pub const MOST_PLACES: u64 = 1_024;

/// How many chains a device may be let hold at once.
pub const MOST_WINDOW: u64 = 64;

fn layout(text: &str) -> Option<bool>
    ensures { result ≡ layout text.now }
{
    match text {
        "split" => Some(false),
        "packed" => Some(true),
        _ => None,
    }
}

/// Whether the layout is packed, or `None` where there is no such layout.
#[tactic(auto, unfolding(crate::specs::Rings::layout_of))]
pub fn layout_of(file: &Table) -> Option<bool>
    ensures { result ≡ layout_of (table_view file.now) }
{
    match text_at(file, "layout") {
        None => None,
        Some(text) => layout(text),
    }
}

fn is_lawful_size(packed: bool, size: u64) -> bool
    ensures value { result ≡ is_lawful_size packed size }
    ensures small { OnTrue result (size < 2 ^ 32) }
{
    if packed {
        2 <= size && size <= MOST_PLACES
    } else {
        matches!(
            size,
            2 | 4 | 8 | 16 | 32 | 64 | 128 | 256 | 512 | MOST_PLACES
        )
    }
}

/// The size, where a ring of the layout may have it.
#[tactic(auto, unfolding(crate::specs::Rings::size_of))]
pub fn size_of(packed: bool, file: &Table) -> Option<u32>
    ensures value { result ≡ size_of packed (table_view file.now) }
    ensures lawful { IfSome result (λ n. is_lawful_size packed n ≡ true) }
{
    match natural_at(file, "size") {
        None => None,
        Some(size) => {
            if is_lawful_size(packed, size) {
                Some(size as u32)
            } else {
                None
            }
        }
    }
}

fn is_named(name: &str, value: &Value) -> bool
    ensures { result ≡ is_named name.now (view value.now) }
{
    match value.as_str() {
        None => false,
        Some(text) => text == name,
    }
}

fn is_feature(value: &Value) -> bool
    ensures { result ≡ is_feature (view value.now) }
{
    is_named("indirect", value) || is_named("event_idx", value) || is_named("in_order", value)
}

fn all_features(values: &[Value]) -> bool
    ensures { result ≡ list_all (λ v. is_feature (view v)) values.now }
{
    values.iter().all(|value| is_feature(value))
}

fn each_is_feature(values: &[Value]) -> bool
    ensures { result ≡ list_all is_feature (map view values.now) }
{
    all_features(values)
}

fn count_named(name: &str, values: &[Value]) -> usize
    ensures { result ≡ count_by (λ v. is_named name.now (view v)) values.now }
{
    values.iter().filter(|value| is_named(name, value)).count()
}

fn times_of(name: &str, values: &[Value]) -> usize
    ensures { result ≡ times_of name.now (map view values.now) }
{
    count_named(name, values)
}

fn are_features(values: &[Value]) -> bool
    ensures { result ≡ are_features (map view values.now) }
{
    each_is_feature(values)
        && times_of("indirect", values) <= 1
        && times_of("event_idx", values) <= 1
        && times_of("in_order", values) <= 1
}

fn features_in(values: &[Value]) -> Features
    ensures { result ≡ features_in (map view values.now) }
{
    Features {
        indirect: 1 <= times_of("indirect", values),
        event_idx: 1 <= times_of("event_idx", values),
        in_order: 1 <= times_of("in_order", values),
    }
}

/// The features, where each is one that there is and none stands twice.
#[tactic(auto, unfolding(crate::specs::Rings::features_of))]
pub fn features_of(file: &Table) -> Option<Features>
    ensures value { result ≡ features_of (table_view file.now) }
{
    let values = items_at(file, "features");
    if are_features(values) {
        Some(features_in(values))
    } else {
        None
    }
}

/// The window, where it is lawful.
#[tactic(auto, unfolding(crate::specs::Rings::window_of))]
pub fn window_of(file: &Table) -> Option<u32>
    ensures value { result ≡ window_of (table_view file.now) }
    ensures lawful { IfSome result (λ n. is_window n ≡ true) }
{
    match natural_or(1, file, "window") {
        None => None,
        Some(window) => {
            if 1 <= window && window <= MOST_WINDOW {
                Some(window as u32)
            } else {
                None
            }
        }
    }
}
