//! The words of a command line.
ghost use Rattle.std.specs.Prelude.{◌≡◌, ◌∷◌, ℕ, List, [], map, false, None, codes, IfSome, IsNone, option_and_then};
ghost use Rattle.vd_runner.specs.Command.{seed_of, behind, part, command};
ghost use Rattle.vd_runner.specs.Given.{with_parts, left};
ghost use Rattle.vd_runner.specs.declared.words.Part.{Part};
ghost use Rattle.vd_runner.specs.declared.words.Part.TheVariants.{Mode, Seed, Brief};

use crate::chosen::{ModeWord, Options};
use vd_text::number_in;

/// What a word, or `--seed` and the number behind it, say.
#[derive(Copy, Clone, Debug)]
pub enum Part {
    Mode(ModeWord),
    Seed(u64),
    Brief,
}

/// What the words so far said, and whether the next is the number of a seed.
#[derive(Copy, Clone, Debug)]
pub struct Given {
    mode: Option<ModeWord>,
    seed: Option<u64>,
    brief: bool,
    awaits: bool,
}

fn seed_of(word: &[u8]) -> Option<u64>
    ensures { result ≡ seed_of word.now }
{
    number_in(word, 0, u64::MAX)
}

fn seed_in(word: &[u8]) -> Option<u64>
    ensures { result ≡ option_and_then seed_of (behind (codes "--seed=") word.now) }
{
    match word {
        [b'-', b'-', b's', b'e', b'e', b'd', b'=', rest @ ..] => seed_of(rest),
        _ => None,
    }
}

/// What a word says alone.
fn part_of(word: &str) -> Option<Part>
    ensures { result ≡ part word.now }
{
    match word {
        "play" => Some(Part::Mode(ModeWord::Play)),
        "check" => Some(Part::Mode(ModeWord::Check)),
        "--brief" => Some(Part::Brief),
        _ => match seed_in(word.as_bytes()) {
            None => None,
            Some(seed) => Some(Part::Seed(seed)),
        },
    }
}

/// With a command, which is said once.
fn with_mode(given: Given, mode: ModeWord) -> Option<Given>
    ensures some { IfSome result (λ g. (g.awaits ≡ false) × ((ps : List Part) → with_parts given (Mode mode ∷ ps) ≡ with_parts g ps)) }
    ensures none { IsNone result → (ps : List Part) → with_parts given (Mode mode ∷ ps) ≡ None }
{
    match given.mode {
        Some(_) => None,
        None => Some(Given {
            mode: Some(mode),
            seed: given.seed,
            brief: given.brief,
            awaits: false,
        }),
    }
}

/// With a seed, of which there is one at most.
fn with_seed(given: Given, seed: u64) -> Option<Given>
    ensures some { IfSome result (λ g. (g.awaits ≡ false) × ((ps : List Part) → with_parts given (Seed seed ∷ ps) ≡ with_parts g ps)) }
    ensures none { IsNone result → (ps : List Part) → with_parts given (Seed seed ∷ ps) ≡ None }
{
    match given.seed {
        Some(_) => None,
        None => Some(Given {
            mode: given.mode,
            seed: Some(seed),
            brief: given.brief,
            awaits: false,
        }),
    }
}

/// With `--brief`, which is said once at most.
fn with_brief(given: Given) -> Option<Given>
    ensures some { IfSome result (λ g. (g.awaits ≡ false) × ((ps : List Part) → with_parts given (Brief ∷ ps) ≡ with_parts g ps)) }
    ensures none { IsNone result → (ps : List Part) → with_parts given (Brief ∷ ps) ≡ None }
{
    if given.brief {
        return None;
    }
    Some(Given {
        mode: given.mode,
        seed: given.seed,
        brief: true,
        awaits: false,
    })
}

fn with(given: Given, part: Part) -> Option<Given>
    ensures some { IfSome result (λ g. (g.awaits ≡ false) × ((ps : List Part) → with_parts given (part ∷ ps) ≡ with_parts g ps)) }
    ensures none { IsNone result → (ps : List Part) → with_parts given (part ∷ ps) ≡ None }
{
    match part {
        Part::Mode(mode) => with_mode(given, mode),
        Part::Seed(seed) => with_seed(given, seed),
        Part::Brief => with_brief(given),
    }
}

/// With one word more, or `None` where no words that follow give it a meaning.
fn step(given: Given, word: &str) -> Option<Given>
    ensures some { IfSome result (λ g. (words : List (List ℕ)) → left given (word.now ∷ words) ≡ left g words) }
    ensures none { IsNone result → (words : List (List ℕ)) → left given (word.now ∷ words) ≡ None }
{
    if given.awaits {
        return match seed_of(word.as_bytes()) {
            None => None,
            Some(seed) => with_seed(given, seed),
        };
    }
    if word == "--seed" {
        return Some(Given {
            mode: given.mode,
            seed: given.seed,
            brief: given.brief,
            awaits: true,
        });
    }
    match part_of(word) {
        None => None,
        Some(part) => with(given, part),
    }
}

/// What is ordered where no word follows.
fn ended(given: Given) -> Option<Options>
    ensures { result ≡ left given [] }
{
    if given.awaits {
        return None;
    }
    match given.mode {
        None => None,
        Some(ModeWord::Play) => Some(Options {
            mode: ModeWord::Play,
            seed: given.seed,
            brief: given.brief,
        }),
        Some(ModeWord::Check) => {
            if given.seed.is_some() || given.brief {
                return None;
            }
            Some(Options {
                mode: ModeWord::Check,
                seed: None,
                brief: false,
            })
        }
    }
}

/// What the words order, or `None` where they mean no command. It takes no memory.
#[tactic(auto, unfolding(crate::specs::Command::command))]
pub fn options(words: &[&str]) -> Option<Options>
    ensures { result ≡ command (map (λ w. w.now) words.now) }
{
    let mut given = Given {
        mode: None,
        seed: None,
        brief: false,
        awaits: false,
    };
    for word in words {
        match step(given, word) {
            None => return None,
            Some(more) => given = more,
        }
    }
    ended(given)
}
