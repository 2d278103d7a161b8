//! Numbers by chance, the same ones for the same seed.

ghost use Rattle.std.specs.Prelude.{◌<◌};

/// What comes next by chance.
#[derive(Drop)]
pub(crate) struct Chance {
    state: u64,
}

impl Chance {
    /// What comes from this seed on.
    pub fn of(seed: u64) -> Chance {
        Chance {
            state: seed.wrapping_mul(0x9E37_79B9_7F4A_7C15),
        }
    }

    /// A number below this one.
    pub fn below(&mut self, limit: u64) -> u64
        requires { 0 < limit }
        ensures { result < limit }
    {
        self.state = self
            .state
            .wrapping_mul(6_364_136_223_846_793_005)
            .wrapping_add(1_442_695_040_888_963_407);
        (self.state >> 33) % limit
    }
}
