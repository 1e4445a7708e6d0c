//! Numbers that look random, and are the same each time.

/// Numbers one after another from a seed.
#[derive(Drop)]
pub struct Numbers {
    /// The number before the next.
    pub seed: u32,
}

impl Numbers {
    /// Returns the next number below a bound.
    pub fn below(&mut self, bound: u32) -> u32 {
        self.seed = self.seed.wrapping_mul(1664525).wrapping_add(1013904223);
        (self.seed >> 16) % bound.max(1)
    }
}
