//! Numbers from a fixed generator, so that every run is the same.

ghost use Rattle.std.specs.Prelude.{◌<◌};

/// A linear congruential generator of 32 bits.
#[derive(Drop)]
pub struct Random {
    state: u32,
}

impl Random {
    pub fn new(seed: u32) -> Random {
        Random { state: seed }
    }

    /// A number below `n`.
    pub fn below(&mut self, n: u32) -> u32
        requires { 0 < n }
        ensures { result < n }
    {
        self.state = self.state.wrapping_mul(1664525).wrapping_add(1013904223);
        (self.state >> 8) % n
    }
}
