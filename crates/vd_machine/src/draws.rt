//! The numbers that are drawn from a seed.
ghost use Rattle.std.specs.Prelude.{◌≡◌, ◌<◌, ◌^◌};
ghost use Rattle.vd_machine.specs.Draws.{next_number, draw};

/// The number from which the next is drawn.
#[derive(Drop)]
pub struct Draws {
    pub last: u64,
}

impl Draws {
    pub fn new(seed: u64) -> Draws
        ensures { result.last ≡ seed }
    {
        Draws { last: seed }
    }

    /// The next number without its lower 33 bits.
    pub fn draw(&mut self) -> u64
        ensures value { result ≡ draw self.old.last }
        ensures next { self.new.last ≡ next_number self.old.last }
        ensures small { result < 2 ^ 31 }
    {
        self.last = self
            .last
            .wrapping_mul(6364136223846793005)
            .wrapping_add(1442695040888963407);
        self.last >> 33
    }
}
