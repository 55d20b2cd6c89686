//! The places of an open chain.
ghost use Rattle.std.specs.Prelude.{◌≡◌, ◌≤◌, ◌<◌, ◌++◌, ◌∷◌, [], length};

use std::marker::Model;

/// Up to 16 places, in order. Contracts see the list. Forgetting them writes nothing.
#[derive(Drop)]
pub struct Places {
    cells: [u32; 16],
    count: usize,
}

impl Model for Places {
    ghost use Rattle.std.specs.Prelude.{◌≡◌, ◌≤◌, length, take};
    ghost use Rattle.vd_split.specs.Kept.{KeptPlaces};

    ghost Value = { KeptPlaces };

    ghost view = { λ p. record { items = take p.count p.cells } };

    ghost invariant = { λ p. (p.count ≤ 16) × (length p.cells ≡ 16) };
}

impl Places {
    /// No places.
    pub fn new() -> Places
        ensures { result.items ≡ [] }
    {
        Places {
            cells: [0; 16],
            count: 0,
        }
    }

    /// Forgets the places.
    #[inline(always)]
    pub fn clear(&mut self)
        ensures { self.new.items ≡ [] }
    {
        self.count = 0;
    }

    /// Appends a place. There must be room.
    #[inline(always)]
    pub fn push(&mut self, place: u32)
        requires { length self.old.items < 16 }
        ensures { self.new.items ≡ self.old.items ++ place ∷ [] }
    {
        let count = self.count;
        self.cells[count] = place;
        self.count = count + 1;
    }

    /// The places.
    #[inline(always)]
    pub fn as_slice(&self) -> &[u32]
        ensures value { result.now ≡ self.now.items }
        ensures fits { length result.now ≤ 16 }
    {
        &self.cells[..self.count]
    }
}
