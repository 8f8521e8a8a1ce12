//! Numbers that look random, but are the same in each run.

/// The state of a linear congruential generator. Only the high bits of its numbers are used.
#[derive(Drop)]
pub(crate) struct Chance {
    pub(crate) state: u64,
}

impl Chance {
    /// The next number, below 2^31.
    pub(crate) fn draw(&mut self) -> u32 {
        self.state = self
            .state
            .wrapping_mul(6_364_136_223_846_793_005)
            .wrapping_add(1_442_695_040_888_963_407);
        u32::try_from(self.state >> 33).unwrap_or(0)
    }
}
