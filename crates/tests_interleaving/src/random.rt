ghost use Rattle.std.specs.Prelude.{◌<◌};

/// Numbers that look random: a linear congruential generator.
#[derive(Drop)]
pub struct Random {
    state: u64,
}

impl Random {
    pub fn new(seed: u64) -> Random {
        Random { state: seed }
    }

    /// A number below the limit, or 0 where that is 0.
    pub fn below(&mut self, limit: u64) -> u64
        ensures { 0 < limit → result < limit }
    {
        self.state = self
            .state
            .wrapping_mul(6_364_136_223_846_793_005)
            .wrapping_add(1_442_695_040_888_963_407);
        if limit == 0 {
            0
        } else {
            (self.state >> 33) % limit
        }
    }
}
