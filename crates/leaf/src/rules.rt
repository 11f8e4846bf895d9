//! The rule of a leaf: at each of its entries, and at the depot.
ghost use Rattle.std.specs.Prelude.{◌≡◌};

use crate::checker::LeafCheck;
use crate::drives::Drives;
use crate::faults::LeafFault;
use measures::measure::Measure;
use routing::networks::Network;

impl<N: Network, M: Measure> LeafCheck<'_, '_, N, M> {
    ghost use Rattle.leaf.specs.Answer.{entries_answer, depot_answer, rule_answer};
    ghost use Rattle.leaf.specs.Held.{leaf_of};
    ghost use Rattle.leaf.specs.Record.{entries_at, entry_size};

    // Denies the first entry that breaks the rule, at its first arc.
    pub(crate) fn check_entries(&self) -> Result<(), LeafFault>
        ensures { let μ = M.Measure.meaning self.now.measure.now in let m = N.Network.meaning self.now.network.now in result ≡ entries_answer μ m (leaf_of μ self.now.leaf) (entries_at m.customers) (entry_size μ.words) (leaf_of μ self.now.leaf).entries }
    {
        let mut drives = Drives::leaving(self.network, 0);
        for entry in self.leaf.entries {
            drives.turn_to(entry.place);
            let corner = self.corner_of(*entry);
            if let Some(to) = self.first_broken(entry.value, corner, &drives, 0) {
                // Nine bytes of an entry, its place and its value, stand before its corner.
                return Err(LeafFault::Entry {
                    from: entry.place,
                    to,
                    offset: entry.corner - 9,
                });
            }
        }
        Ok(())
    }

    // Denies the first arc from the depot at which the van price breaks the rule.
    pub(crate) fn check_depot(&self) -> Result<(), LeafFault>
        ensures { let μ = M.Measure.meaning self.now.measure.now in let m = N.Network.meaning self.now.network.now in result ≡ depot_answer μ m (leaf_of μ self.now.leaf) (m.place 0) }
    {
        let depot = self.network.place(0).unwrap();
        let state = self.measure.start(depot.opening);
        let drives = Drives::leaving(self.network, 0);
        if let Some(to) = self.first_broken(self.leaf.price, state, &drives, 1) {
            return Err(LeafFault::Depot { to });
        }
        Ok(())
    }

    // The rule at the entries and at the depot, then the bound.
    pub(crate) fn check_rule(&self, cost: u32) -> Result<(), LeafFault>
        ensures { let μ = M.Measure.meaning self.now.measure.now in result ≡ rule_answer μ (N.Network.meaning self.now.network.now) (leaf_of μ self.now.leaf) cost }
    {
        self.check_entries()?;
        self.check_depot()?;
        self.check_bound(cost)
    }
}
