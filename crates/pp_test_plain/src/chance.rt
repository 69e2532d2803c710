//! Numbers that look like chance, and are the same each time.

ghost use Rattle.std.specs.Prelude.{◌<◌};

/// A linear congruential generator.
#[derive(Drop)]
pub struct Chance {
    seed: u64,
}

impl Chance {
    pub fn new() -> Chance {
        Chance { seed: 1 }
    }

    /// The next number, below the one given where that isn't 0.
    pub fn below(&mut self, most: u32) -> u32
        ensures { 0 < most → result < most }
    {
        self.seed = self
            .seed
            .wrapping_mul(6_364_136_223_846_793_005)
            .wrapping_add(1_442_695_040_888_963_407);
        let number = (self.seed >> 33) as u32;
        number.checked_rem(most).unwrap_or(0)
    }
}
