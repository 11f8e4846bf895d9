//! Looking up a leaf's potential at a place and a state.
ghost use Rattle.std.specs.Prelude.{◌≡◌, ◌≤◌, IfSome, unsigned_abs};

use crate::checker::LeafCheck;
use crate::potentials::Potential;
use crate::records::corner_at;
use measures::measure::Measure;
use routing::networks::Network;

impl<N: Network, M: Measure> LeafCheck<'_, '_, N, M> {
    ghost use Rattle.leaf.specs.Held.{leaf_of};
    ghost use Rattle.leaf.specs.Stored.{decoded, Legible};
    ghost use Rattle.leaf.specs.Rule.{best};

    // The state of a stored entry's corner.
    pub(crate) fn corner_of(&self, entry: Potential<usize>) -> M::State
        requires { Legible (M.Measure.meaning self.now.measure.now) self.now.leaf.bytes.now entry }
        ensures { result ≡ (decoded (M.Measure.meaning self.now.measure.now) self.now.leaf.bytes.now entry).corner }
    {
        corner_at(self.measure, self.leaf.bytes, entry.corner).unwrap()
    }

    // Whether a stored entry's corner is at most a state.
    fn is_below(&self, entry: Potential<usize>, state: M::State) -> bool
        requires { Legible (M.Measure.meaning self.now.measure.now) self.now.leaf.bytes.now entry }
        ensures { let μ = M.Measure.meaning self.now.measure.now in result ≡ μ.at_most (decoded μ self.now.leaf.bytes.now entry).corner state }
    {
        self.measure.at_most(self.corner_of(entry), state)
    }

    // The greatest value among the entries at a customer whose corner is at most a state.
    pub(crate) fn best_value(&self, place: u8, state: M::State) -> Option<i64>
        requires customer { 1 ≤ place }
        requires few { place ≤ 60 }
        ensures value { let μ = M.Measure.meaning self.now.measure.now in result ≡ best μ (leaf_of μ self.now.leaf).entries place state }
        ensures small { IfSome result (λ v. unsigned_abs v ≤ 1000000000000000) }
    {
        self.index
            .at(place)
            .iter()
            .rev()
            .find(|entry| self.is_below(**entry, state))
            .map(|entry| entry.value)
    }
}
