//! The table of running chains.
ghost use Rattle.std.specs.Prelude.{◌≡◌, ◌≢◌, ◌↔◌, ◌<◌, ◌≤◌, ℕ, Option, Some, None, IsTrue, IsSomeAnd, MatchOption, length};
ghost use Rattle.vd_packed.specs.DeviceEnd.{number_at};

/// Whether the chain of this number runs at this head.
#[inline]
pub(super) fn runs_at(running: &[Option<u32>], head: u32, number: u32) -> bool
    ensures { IsTrue result ↔ (number_at running.now head ≡ Some number) }
{
    match running.get(head as usize) {
        Some(Some(k)) => *k == number,
        _ => false,
    }
}

/// The head below `size` of a running chain. It is looked for at the guessed head first.
pub(crate) fn find_head(running: &[Option<u32>], size: u32, guess: u32, number: u32) -> Option<u32>
    ensures { MatchOption result ((h : ℕ) → h < size → number_at running.now h ≢ Some number) (λ h. number_at running.now h ≡ Some number) }
{
    if runs_at(running, guess, number) {
        return Some(guess);
    }
    for head in 0..size {
        if runs_at(running, head, number) {
            return Some(head);
        }
    }
    None
}

/// Empties the table.
pub(super) fn clear(running: &mut [Option<u32>])
    ensures kept { length running.new ≡ length running.old }
    ensures none { (h : ℕ) → number_at running.new h ≡ None }
{
    for number in running.iter_mut() {
        *number = None;
    }
}

/// Whether no running chain has a number below `count`.
pub(super) fn none_below(running: &[Option<u32>], count: u32) -> bool
    ensures { IsTrue result ↔ ((h k : ℕ) → number_at running.now h ≡ Some k → count ≤ k) }
{
    for number in running {
        if is_below(*number, count) {
            return false;
        }
    }
    true
}

#[inline]
fn is_below(number: Option<u32>, count: u32) -> bool
    ensures { IsTrue result ↔ IsSomeAnd number (λ k. k < count) }
{
    match number {
        Some(k) => k < count,
        None => false,
    }
}

/// Remembers the head of a chain, at the low bits of its number.
#[inline]
pub(super) fn remember(guesses: &mut Vec<u32>, number: u32, head: u32)
    requires { 0 < length guesses.old.items }
    ensures { length guesses.new.items ≡ length guesses.old.items }
{
    let last = guesses.len() - 1;
    let i = number as usize & last;
    guesses[i] = head;
}

/// The head remembered last at the low bits of a number.
#[inline]
pub(super) fn guess(guesses: &Vec<u32>, number: u32) -> u32 {
    let n = guesses.len();
    if n == 0 {
        return 0;
    }
    let i = number as usize & (n - 1);
    guesses[i]
}
