//! Numbers that look random, the same in each run.

/// A linear congruential generator (Knuth's MMIX).
#[derive(Drop)]
pub struct Dice {
    state: u64,
}

impl Dice {
    pub fn new(seed: u64) -> Dice {
        Dice { state: seed }
    }

    /// The next number.
    pub fn roll(&mut self) -> u8 {
        self.state = self
            .state
            .wrapping_mul(6_364_136_223_846_793_005)
            .wrapping_add(1_442_695_040_888_963_407);
        let [first, ..] = self.state.to_be_bytes();
        first
    }

    /// Left, bottom, right and top of a box of at most 7 by 7 squares between the coordinates 0 and 16.
    pub fn area(&mut self) -> (i32, i32, i32, i32) {
        let left = i32::from(self.roll() % 10);
        let bottom = i32::from(self.roll() % 10);
        let width = i32::from(self.roll() % 7).saturating_add(1);
        let height = i32::from(self.roll() % 7).saturating_add(1);
        (
            left,
            bottom,
            left.saturating_add(width),
            bottom.saturating_add(height),
        )
    }
}
