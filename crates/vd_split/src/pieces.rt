//! Pieces that an end keeps while it works on a chain. Forgetting them writes nothing, unlike `ArrayVec`'s `clear`.
ghost use Rattle.std.specs.Prelude.{◌≡◌, ◌≤◌, ◌<◌, ◌++◌, ◌∷◌, [], length};

use std::marker::Model;
use vd_model::Piece;

const NONE: Piece = Piece {
    addr: 0,
    len: 0,
    write: false,
};

/// Up to 16 pieces, in order. Contracts see the list.
#[derive(Drop)]
pub struct Pieces {
    cells: [Piece; 16],
    count: usize,
}

impl Model for Pieces {
    ghost use Rattle.std.specs.Prelude.{◌≡◌, ◌≤◌, length, take};
    ghost use Rattle.vd_split.specs.Kept.{KeptPieces};

    ghost Value = { KeptPieces };

    ghost view = { λ p. record { items = take p.count p.cells } };

    ghost invariant = { λ p. (p.count ≤ 16) × (length p.cells ≡ 16) };
}

impl Pieces {
    /// No pieces.
    pub fn new() -> Pieces
        ensures { result.items ≡ [] }
    {
        Pieces {
            cells: [NONE; 16],
            count: 0,
        }
    }

    /// Forgets the pieces.
    #[inline(always)]
    pub fn clear(&mut self)
        ensures { self.new.items ≡ [] }
    {
        self.count = 0;
    }

    /// Appends a piece. There must be room.
    #[inline(always)]
    pub fn push(&mut self, piece: Piece)
        requires { length self.old.items < 16 }
        ensures { self.new.items ≡ self.old.items ++ piece ∷ [] }
    {
        let count = self.count;
        self.cells[count] = piece;
        self.count = count + 1;
    }

    /// Puts these pieces in place of those that are there.
    #[inline(always)]
    pub fn fill(&mut self, from: &[Piece])
        requires { length from.now ≤ 16 }
        ensures { self.new.items ≡ from.now }
    {
        self.cells[..from.len()].copy_from_slice(from);
        self.count = from.len();
    }

    /// How many there are.
    #[inline(always)]
    pub fn len(&self) -> usize
        ensures value { result ≡ length self.now.items }
        ensures fits { result ≤ 16 }
    {
        self.count
    }

    /// The pieces.
    #[inline(always)]
    pub fn as_slice(&self) -> &[Piece]
        ensures value { result.now ≡ self.now.items }
        ensures fits { length result.now ≤ 16 }
    {
        &self.cells[..self.count]
    }
}
