//! The load: what the van has taken on.
ghost use Rattle.measures.specs.Load.{load_measuring};
ghost use Rattle.measures.specs.LoadLaws.{load_laws};

use crate::measure::Measure;
use crate::moves::Move;
use crate::words::{one_within, within};

#[derive(Clone, Copy)]
pub struct Load;

// `words` and `at_most` answer as for time: two bodies of one line, and an impl for both would overlap with the pair's.
impl Measure for Load {
    type State = u32;

    ghost meaning = { λ _. load_measuring };

    ghost laws = { λ _. load_laws };

    fn words(&self) -> usize {
        1
    }

    fn start(&self, opening: u32) -> u32 {
        0
    }

    // A sum that passes 32 bits is above any capacity.
    fn step(&self, state: u32, by: Move) -> Option<u32> {
        within(state.checked_add(by.load)?, by.capacity)
    }

    fn at_most(&self, a: u32, b: u32) -> bool {
        a <= b
    }

    fn read(&self, words: &[u64]) -> Option<u32> {
        one_within(words, 10_000)
    }
}
