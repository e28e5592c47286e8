ghost use Rattle.std.specs.Prelude.{◌<◌};

// Numbers drawn from a seed, by a linear congruence.
#[derive(Drop)]
pub struct Draw(pub u64);

impl Draw {
    pub fn word(&mut self) -> u64 {
        self.0 = self
            .0
            .wrapping_mul(6_364_136_223_846_793_005)
            .wrapping_add(1_442_695_040_888_963_407);
        self.0 >> 32
    }

    pub fn below(&mut self, end: u64) -> u64
        requires { 0 < end }
        ensures { result < end }
    {
        self.word() % end
    }

    // Each bit is set in one of four.
    pub fn mask(&mut self) -> u64 {
        (self.word() << 32 | self.word()) & (self.word() << 32 | self.word())
    }
}
