//! Reading a chain text: an optional count and `*`, and then pieces with one space between.
ghost use Rattle.std.specs.Prelude.{◌≡◌, ◌≤◌, ◌<◌, length, option_map, option_and_then, is_some, IfSome, true, false};
ghost use Rattle.std.specs.Option.{option_map_or};
ghost use Rattle.std.specs.List.{All, list_all};
ghost use Rattle.vd_model.specs.Chains.{total, IsPiece};
ghost use Rattle.vd_text.specs.Grammar.{pieces, is_readable_first, chain, count, run, is_within, run_within, has_bytes, is_lawful};
ghost use Rattle.vd_text.specs.Bounds.{if_at_most};
ghost use Rattle.vd_text.specs.declared.chains.TheConstants.{MOST_PIECES};

use crate::reading::{cut_at, number_in, read_piece};
use arrayvec::ArrayVec;
use vd_model::{Chain, Piece, Run};

/// How many pieces a chain may have.
pub const MOST_PIECES: usize = 16;

/// The count, and what stands after its `*`.
fn count_in(text: &[u8]) -> Option<(u32, &[u8])>
    ensures value { option_map (λ p. (p.0, p.1.now)) result ≡ count text.now }
    ensures some { IfSome result (λ p. 1 ≤ p.0) }
{
    match cut_at(text, b'*') {
        None => Some((1, text)),
        Some((front, back)) => {
            let count = number_in(front, 1, 0xffff_ffff)?;
            Some((count as u32, back))
        }
    }
}

/// Whether the text writes pieces, the readable ones first.
fn writes_chain(text: &[u8]) -> bool
    ensures { result ≡ option_map_or is_readable_first (pieces text.now) false }
{
    let mut written = false;
    let mut rest = text;
    while let Some((word, after)) = cut_at(rest, b' ') {
        match read_piece(word) {
            None => return false,
            Some(piece) => {
                if written && !piece.write {
                    return false;
                }
                written = piece.write;
            }
        }
        rest = after;
    }
    match read_piece(rest) {
        None => false,
        Some(piece) => piece.write || !written,
    }
}

/// Whether the text writes a chain: it has a meaning, and no readable piece follows a writable one.
#[tactic(auto, unfolding(crate::specs::Grammar::run))]
pub fn is_chain(text: &[u8]) -> bool
    ensures { result ≡ is_some (run text.now) }
{
    match count_in(text) {
        None => false,
        Some((_, rest)) => writes_chain(rest),
    }
}

/// The pieces, where there are at most `MOST_PIECES`.
fn pieces_in(text: &[u8]) -> Option<ArrayVec<Piece, MOST_PIECES>>
    ensures value { option_map (λ v. v.items) result ≡ option_and_then (if_at_most MOST_PIECES) (pieces text.now) }
    ensures some { IfSome result (λ v. 0 < length v.items) }
    ensures fits { IfSome result (λ v. All IsPiece v.items) }
    ensures bytes { IfSome result (λ v. list_all has_bytes v.items ≡ true) }
{
    let mut found = ArrayVec::new();
    let mut rest = text;
    while let Some((word, after)) = cut_at(rest, b' ') {
        match read_piece(word) {
            None => return None,
            Some(piece) => {
                if found.is_full() {
                    return None;
                }
                found.push(piece);
            }
        }
        rest = after;
    }
    match read_piece(rest) {
        None => None,
        Some(piece) => {
            if found.is_full() {
                return None;
            }
            found.push(piece);
            Some(found)
        }
    }
}

fn is_readable_first(pieces: &[Piece]) -> bool
    ensures { result ≡ is_readable_first pieces.now }
{
    let mut written = false;
    for piece in pieces {
        if written && !piece.write {
            return false;
        }
        written = piece.write;
    }
    true
}

fn total(pieces: &[Piece]) -> u64
    requires { length pieces.now ≤ MOST_PIECES }
    ensures { result ≡ total pieces.now }
{
    pieces.iter().map(|piece| piece.len as u64).sum()
}

fn is_within(most: u32, pieces: &[Piece]) -> bool
    requires { length pieces.now ≤ MOST_PIECES }
    ensures { result ≡ is_within most pieces.now }
{
    pieces.len() <= most as usize && total(pieces) <= 0xffff_ffff
}

/// The chain that the text writes and its count, where the chain has at most `MOST_PIECES` and at most `most` pieces, and a
/// total length of at most 4,294,967,295 bytes.
#[tactic(auto, unfolding(crate::specs::Grammar::run, crate::specs::Grammar::run_within))]
pub fn read_run(text: &[u8], most: u32) -> Option<Run>
    ensures value { result ≡ run_within most text.now }
    ensures lawful { IfSome result (λ r. is_lawful most r ≡ true) }
{
    let (count, rest) = count_in(text)?;
    let pieces = pieces_in(rest)?;
    if is_readable_first(&pieces) && is_within(most, &pieces) {
        let chain = Chain::of(pieces);
        Some(Run { count, chain })
    } else {
        None
    }
}
