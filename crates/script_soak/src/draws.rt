// The numbers that a seed draws.
ghost use Rattle.std.specs.Prelude.{◌≡◌, ◌<◌, ◌/◌, ◌^◌};
ghost use Rattle.script_soak.specs.Draws.{next_state};

/// A generator of numbers below 2^31. Its state is that of a linear congruential generator of 64 bits, and is the seed at
/// first.
#[derive(Drop)]
pub struct Draws {
    pub state: u64,
}

impl Draws {
    /// Draws the next number.
    pub fn next(&mut self) -> u32
        ensures state { self.new.state ≡ next_state self.old.state }
        ensures drawn { result ≡ self.new.state / 2 ^ 33 }
    {
        self.state = next_state(self.state);
        (self.state >> 33) as u32
    }
}

fn next_state(state: u64) -> u64
    ensures { result ≡ next_state state }
{
    state
        .wrapping_mul(6_364_136_223_846_793_005)
        .wrapping_add(1_442_695_040_888_963_407)
}
