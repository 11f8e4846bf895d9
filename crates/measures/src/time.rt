//! The minute: when service began at the place, at the earliest.
ghost use Rattle.measures.specs.Time.{time_measuring};
ghost use Rattle.measures.specs.TimeLaws.{time_laws};

use crate::measure::Measure;
use crate::moves::Move;
use crate::words::{one_within, within};

#[derive(Clone, Copy)]
pub struct Time;

impl Measure for Time {
    type State = u32;

    ghost meaning = { λ _. time_measuring };

    ghost laws = { λ _. time_laws };

    fn words(&self) -> usize {
        1
    }

    fn start(&self, opening: u32) -> u32 {
        opening
    }

    // Waits for the opening; a sum that passes 32 bits is after any closing.
    fn step(&self, state: u32, by: Move) -> Option<u32> {
        let arrival = state.checked_add(by.service)?.checked_add(by.travel)?;
        within(arrival.max(by.opening), by.closing)
    }

    fn at_most(&self, a: u32, b: u32) -> bool {
        a <= b
    }

    fn read(&self, words: &[u64]) -> Option<u32> {
        one_within(words, 60_000)
    }
}
