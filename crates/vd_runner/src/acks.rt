//! Where a command's entry stands in the list of what came back.
ghost use Rattle.std.specs.Prelude.{◌≡◌, ◌≢◌, ℕ, ◌<◌, ◌≤◌, Some, length, slice_get, IfSome, IsNone};
ghost use Rattle.vd_ring.specs.History.{occurs};
ghost use Rattle.vd_runner.specs.CommandReport.{entry_numbers};

use vd_model::Return;

/// The first place from `start` on and before `end` whose entry has this number.
fn place_between(list: &[Return], number: u64, start: usize, end: usize) -> Option<usize>
    requires { end ≤ length list.now }
    ensures some { IfSome result (λ place. (place < length list.now) × (slice_get (entry_numbers list.now) place ≡ Some number)) }
    ensures none { IsNone result → (k : ℕ) → start ≤ k → k < end → slice_get (entry_numbers list.now) k ≢ Some number }
{
    for place in start..end {
        if list[place].number as u64 == number {
            return Some(place);
        }
    }
    None
}

/// The place of the entry with this number, which is looked for from `start` on and then before it: where the entries stand
/// in order, and `start` is behind the last one that was found, it is the next.
pub fn place_of(list: &[Return], number: u64, start: usize) -> usize
    requires start { start ≤ length list.now }
    requires there { occurs number (entry_numbers list.now) ≡ 1 }
    ensures place { result < length list.now }
    ensures number { slice_get (entry_numbers list.now) result ≡ Some number }
{
    if let Some(place) = place_between(list, number, start, list.len()) {
        return place;
    }
    match place_between(list, number, 0, start) {
        Some(place) => place,
        None => unreachable!(),
    }
}
