//! How many steps a party makes in its turn.
ghost use Rattle.std.specs.Prelude.{◌≡◌, ◌≤◌, ℕ, Some, None, is_some};
ghost use Rattle.vd_turns.specs.Draws.{next_number, drawn};

/// The numbers drawn from a seed. Without one each party makes one step.
#[derive(Drop)]
pub struct Draws {
    last: Option<u64>,
}

impl Draws {
    pub fn new(seed: Option<u64>) -> Draws
        ensures { result.last ≡ seed }
    {
        Draws { last: seed }
    }

    /// Whether there is a seed.
    pub fn are_drawn(&self) -> bool
        ensures { result ≡ is_some self.now.last }
    {
        self.last.is_some()
    }

    /// How many steps the next turn has, 1 to 4.
    pub fn steps(&mut self) -> u64
        ensures least { 1 ≤ result }
        ensures most { result ≤ 4 }
        ensures unseeded { self.old.last ≡ None → (result ≡ 1) × (self.new.last ≡ None) }
        ensures seeded { (x : ℕ) → self.old.last ≡ Some x → (result ≡ drawn x) × (self.new.last ≡ Some (next_number x)) }
    {
        match self.last {
            None => 1,
            Some(x) => {
                let next = x
                    .wrapping_mul(6364136223846793005)
                    .wrapping_add(1442695040888963407);
                self.last = Some(next);
                1 + (next >> 33) % 4
            }
        }
    }
}
