//! The bound that a leaf gives on the cost of a plan.
ghost use Rattle.std.specs.Prelude.{◌≡◌, ◌≤◌, length, pos, ◌-ℤ◌, ◌*ℤ◌, if◌then◌else◌, int_lt, unsigned_abs};
ghost use Rattle.leaf.specs.Rule.{sum_z};

use crate::checker::LeafCheck;
use crate::faults::LeafFault;
use crate::held::Held;
use measures::measure::Measure;
use routing::cells::Fleet;
use routing::networks::Network;

impl Held<'_> {
    // The sum of the duals.
    fn dual_sum(&self) -> i64
        requires { length self.now.duals.now ≤ 60 }
        ensures value { result ≡ sum_z self.now.duals.now }
        ensures small { unsigned_abs result ≤ 60000000000000 }
    {
        // A `for`: the library has no lemma that bounds a `sum` of signed numbers.
        let mut sum = 0;
        for dual in self.duals {
            sum += *dual;
        }
        sum
    }

    // The van price of the vans that it counts: the least of the fleet, or the most where it is negative.
    fn fleet_price(&self, fleet: Fleet) -> i64
        ensures value { result ≡ self.now.price *ℤ pos (if int_lt self.now.price (pos 0) then fleet.most else fleet.least) }
        ensures small { unsigned_abs result ≤ 60000000000000000 }
    {
        let vans = if self.price < 0 {
            fleet.most
        } else {
            fleet.least
        };
        self.price * vans as i64
    }

    // What a plan that costs one less comes to, in the leaf's scale.
    fn scaled_below(&self, cost: u32) -> i64
        ensures { result ≡ pos self.now.scale *ℤ (pos cost -ℤ pos 1) }
    {
        self.scale as i64 * (cost as i64 - 1)
    }
}

impl<N: Network, M: Measure> LeafCheck<'_, '_, N, M> {
    ghost use Rattle.leaf.specs.Answer.{bound_answer};
    ghost use Rattle.leaf.specs.Held.{leaf_of};

    // Denies a leaf whose bound does not reach the cost.
    pub(crate) fn check_bound(&self, cost: u32) -> Result<(), LeafFault>
        ensures { result ≡ bound_answer (N.Network.meaning self.now.network.now) (leaf_of (M.Measure.meaning self.now.measure.now) self.now.leaf) cost }
    {
        let bound = self.leaf.dual_sum() + self.leaf.fleet_price(self.network.fleet());
        if self.leaf.scaled_below(cost) < bound {
            Ok(())
        } else {
            Err(LeafFault::Bound)
        }
    }
}
