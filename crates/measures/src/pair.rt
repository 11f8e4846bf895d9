//! Two measures kept side by side.
ghost use Rattle.measures.specs.Pair.{pair_measuring};
ghost use Rattle.measures.specs.PairLaws.{pair_laws};

use crate::measure::Measure;
use crate::moves::Move;

#[derive(Clone, Copy)]
pub struct Pair<A, B> {
    pub first: A,
    pub second: B,
}

/// The states of the two.
#[derive(Clone, Copy)]
pub struct Both<S, T> {
    pub first: S,
    pub second: T,
}

impl<A: Measure, B: Measure> Measure for Pair<A, B> {
    type State = Both<A::State, B::State>;

    ghost meaning = { λ p. pair_measuring (A.Measure.meaning p.first) (B.Measure.meaning p.second) };

    ghost laws = { λ p. pair_laws (A.Measure.laws p.first) (B.Measure.laws p.second) };

    fn words(&self) -> usize {
        (self.first.words() + self.second.words()).min(100)
    }

    fn start(&self, opening: u32) -> Both<A::State, B::State> {
        Both {
            first: self.first.start(opening),
            second: self.second.start(opening),
        }
    }

    fn step(&self, state: Both<A::State, B::State>, by: Move) -> Option<Both<A::State, B::State>> {
        Some(Both {
            first: self.first.step(state.first, by)?,
            second: self.second.step(state.second, by)?,
        })
    }

    fn at_most(&self, a: Both<A::State, B::State>, b: Both<A::State, B::State>) -> bool {
        self.first.at_most(a.first, b.first) && self.second.at_most(a.second, b.second)
    }

    // The first part's words, then the second's; no corner is read where the two take more than 100.
    fn read(&self, words: &[u64]) -> Option<Both<A::State, B::State>> {
        let front = self.first.words();
        if front + self.second.words() > 100 {
            return None;
        }
        let (head, rest) = words.split_at_checked(front)?;
        Some(Both {
            first: self.first.read(head)?,
            second: self.second.read(rest)?,
        })
    }
}
