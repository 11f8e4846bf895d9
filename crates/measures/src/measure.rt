//! The interface of a measure: each question answers what the measure means, and none changes it.
ghost use Rattle.std.specs.Prelude.{◌≡◌};
ghost use Rattle.measures.specs.Measure.{Measuring, Laws};

use crate::moves::Move;

pub trait Measure {
    type State: Copy;

    ghost meaning: { Self → Measuring Self.State };

    ghost laws: { (x : Self) → Laws (meaning x) };

    // How many words of eight bytes a corner takes.
    fn words(&self) -> usize
        ensures { result ≡ (meaning self.now).words };

    // The state at the depot, from its opening.
    fn start(&self, opening: u32) -> Self::State
        ensures { result ≡ (meaning self.now).start opening };

    // The state after a move, or none where the move cannot be made.
    fn step(&self, state: Self::State, by: Move) -> Option<Self::State>
        ensures { result ≡ (meaning self.now).step state by };

    // Whether a state is at most another.
    fn at_most(&self, a: Self::State, b: Self::State) -> bool
        ensures { result ≡ (meaning self.now).at_most a b };

    // The state that a corner's words read as, or none.
    fn read(&self, words: &[u64]) -> Option<Self::State>
        ensures { result ≡ (meaning self.now).read words.now };
}
