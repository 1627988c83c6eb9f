//! Random numbers.

ghost use Rattle.std.specs.Prelude.{◌<◌};

/// A row of random numbers, which the seed tells.
#[derive(Clone, Copy)]
pub struct Dice {
    seed: u32,
}

impl Dice {
    /// The row of a seed.
    pub fn new(seed: u32) -> Dice {
        Dice { seed }
    }

    /// The next number, below `n`.
    pub fn below(&mut self, n: u32) -> u32
        requires { 0 < n }
        ensures { result < n }
    {
        self.seed = self.seed.wrapping_mul(1664525).wrapping_add(1013904223);
        (self.seed >> 8) % n
    }
}
