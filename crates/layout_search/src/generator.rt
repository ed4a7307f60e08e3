//! Numbers that look as if they were drawn by chance.

/// A linear congruential generator of 64 bits, with the multiplier and the increment of Knuth's MMIX.
#[derive(Clone, Copy)]
pub(crate) struct Generator {
    state: u64,
}

impl Generator {
    /// A generator that begins with this number.
    pub(crate) fn new(seed: u64) -> Generator {
        Generator { state: seed }
    }

    /// The next number below a count of at most 2^32, or 0 where the count is 0.
    pub(crate) fn draw(&mut self, count: usize) -> usize {
        self.state = self
            .state
            .wrapping_mul(6364136223846793005)
            .wrapping_add(1442695040888963407);
        let high = self.state >> 33;
        (high.wrapping_mul(count as u64) >> 31) as usize
    }
}
