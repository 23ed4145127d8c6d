//! Draws of numbers, after SplitMix64 (Steele, Lea and Flood, Fast Splittable Pseudorandom Number
//! Generators, OOPSLA 2014).

ghost use Rattle.std.specs.Prelude.{◌≡◌, ◌<◌};
ghost use Rattle.soak_text.specs.Draws as spec;

use bm_base::mixed;

/// The source of the draws.
#[derive(Drop)]
pub(crate) struct Draws {
    pub(crate) state: u64,
}

impl Draws {
    /// The next draw, modulo n.
    #[tactic(auto, unfolding(crate::specs::Draws::after))]
    pub(crate) fn below(&mut self, n: u64) -> u64
        requires { 0 < n }
        ensures drawn { spec.below n self.old.state ≡ (result, self.new.state) }
        ensures small { result < n }
    {
        self.state = self.state.wrapping_add(0x9E3779B97F4A7C15);
        mixed(self.state) % n
    }
}
