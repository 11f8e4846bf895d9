//! Whether a value keeps the rule along the arcs from its place.
ghost use Rattle.std.specs.Prelude.{◌≡◌, ◌+◌, ◌-◌, ◌*◌, ◌≤◌, pos, unsigned_abs};

use crate::checker::LeafCheck;
use crate::drives::Drives;
use crate::held::Held;
use measures::measure::Measure;
use routing::cells::Road;
use routing::networks::Network;

impl Held<'_> {
    // The cost of a road in the leaf's scale.
    fn scaled(&self, road: Road) -> i64
        ensures value { result ≡ pos (self.now.scale * road.cost) }
        ensures small { unsigned_abs result ≤ 1000000000 }
    {
        (self.scale as u32 * road.cost) as i64
    }
}

impl<N: Network, M: Measure> LeafCheck<'_, '_, N, M> {
    ghost use Rattle.leaf.specs.Answer.{arc_ok, first_refused};
    ghost use Rattle.leaf.specs.Held.{leaf_of};

    // Whether a value at a state keeps the rule along the arc to an end: an absent arc or step asks nothing, an absent potential breaks it.
    fn keeps_rule(&self, value: i64, state: M::State, drives: &Drives<N>, to: u8) -> bool
        requires same { drives.now.network.now ≡ self.now.network.now }
        requires there { to ≤ (N.Network.meaning self.now.network.now).customers }
        ensures { let μ = M.Measure.meaning self.now.measure.now in result ≡ arc_ok μ (N.Network.meaning self.now.network.now) (leaf_of μ self.now.leaf) value state drives.now.from to }
    {
        let Some(drive) = drives.to(to) else {
            return true;
        };
        let Some(reached) = self.measure.step(state, drive.by) else {
            return true;
        };
        let cost = self.leaf.scaled(drive.road);
        if to == 0 {
            return value <= cost;
        }
        let Some(potential) = self.best_value(to, reached) else {
            return false;
        };
        value <= cost - self.leaf.duals[to as usize - 1] + potential
    }

    // The first end of the arcs from a place, from an end on, at which a value at a state breaks the rule.
    pub(crate) fn first_broken(
        &self,
        value: i64,
        state: M::State,
        drives: &Drives<N>,
        first: u8,
    ) -> Option<u8>
        requires { drives.now.network.now ≡ self.now.network.now }
        ensures { let μ = M.Measure.meaning self.now.measure.now in let m = N.Network.meaning self.now.network.now in result ≡ first_refused (arc_ok μ m (leaf_of μ self.now.leaf) value state drives.now.from) first (m.customers + 1 - first) }
    {
        (first..self.network.customers() + 1).find(|to| !self.keeps_rule(value, state, drives, *to))
    }
}
