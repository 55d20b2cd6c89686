//! A linear congruential generator.
ghost use Rattle.std.specs.Prelude.{◌≡◌, ◌+◌, ◌*◌, ◌/◌, ◌%◌, ◌^◌, ◌<◌};

/// The state of the generator.
#[derive(Drop)]
pub struct Draws {
    pub state: u64,
}

impl Draws {
    /// The next draw, below 2^31.
    pub fn next(&mut self) -> u64
        ensures state { self.new.state ≡ (self.old.state * 6364136223846793005 + 1442695040888963407) % 2 ^ 64 }
        ensures draw { result ≡ self.new.state / 2 ^ 33 }
        ensures below { result < 2 ^ 31 }
    {
        self.state = self
            .state
            .wrapping_mul(6364136223846793005)
            .wrapping_add(1442695040888963407);
        self.state >> 33
    }
}
