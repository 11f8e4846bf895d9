//! Making a table network, and its answers.
ghost use Rattle.std.specs.Prelude.{◌≡◌, ◌+◌, ◌*◌, ◌≤◌, not, ◌&&◌, length, MatchOption, ◌==◌, nat_le};
ghost use Rattle.routing.specs.Tables.{table_meaning};
ghost use Rattle.routing.specs.Lawful.{table_limits};

use crate::cells::{Fleet, Head, Place, Road};
use crate::networks::Network;
use crate::tables::TableNetwork;

impl Place {
    /// The same window with no load and no service; the check knows no `..` over a type with facts.
    pub fn unladen(&self) -> Place
        ensures { (result.load ≡ 0) × (result.opening ≡ self.now.opening) × (result.closing ≡ self.now.closing) × (result.service ≡ 0) }
    {
        Place {
            load: 0,
            opening: self.opening,
            closing: self.closing,
            service: 0,
        }
    }
}

impl Head {
    // Whether there is a place i.
    fn has(&self, i: u8) -> bool
        ensures { result ≡ nat_le i self.now.customers }
    {
        i <= self.customers
    }

    // Whether the arcs' table speaks of the arc from i to j.
    fn joins(&self, i: u8, j: u8) -> bool
        ensures { result ≡ (nat_le i self.now.customers && (nat_le j self.now.customers && not (i == j))) }
    {
        self.has(i) && self.has(j) && i != j
    }

    // Where the arcs' table has the arc from i to j.
    fn cell(&self, i: u8, j: u8) -> usize
        ensures { result ≡ i * (self.now.customers + 1) + j }
    {
        i as usize * (self.customers as usize + 1) + j as usize
    }
}

impl<'a> TableNetwork<'a> {
    /// A network over the tables, or none where they have too few cells for its places or arcs.
    pub fn new(
        head: Head,
        places: &'a [Place],
        arcs: &'a [Option<Road>],
    ) -> Option<TableNetwork<'a>>
        ensures { MatchOption result ((head.customers + 1 ≤ length places.now) × ((head.customers + 1) * (head.customers + 1) ≤ length arcs.now) → ⊥) (λ t. table_meaning t.head t.places.now t.arcs.now ≡ table_meaning head places.now arcs.now) }
    {
        let side = head.customers as usize + 1;
        if places.len() < side || arcs.len() < side * side {
            return None;
        }
        Some(TableNetwork { head, places, arcs })
    }
}

impl Network for TableNetwork<'_> {
    ghost meaning = { λ t. table_meaning t.head t.places.now t.arcs.now };

    ghost limits = { λ t. table_limits t.head t.places.now t.arcs.now t.placed };

    fn customers(&self) -> u8 {
        self.head.customers
    }

    fn place(&self, i: u8) -> Option<Place> {
        if i == 0 {
            let depot = &self.places[0];
            return Some(depot.unladen());
        }
        if !self.head.has(i) {
            return None;
        }
        Some(self.places[i as usize])
    }

    fn capacity(&self) -> u32 {
        self.head.capacity
    }

    fn fleet(&self) -> Fleet {
        self.head.fleet
    }

    fn arc(&self, i: u8, j: u8) -> Option<Road> {
        if !self.head.joins(i, j) {
            return None;
        }
        self.arcs[self.head.cell(i, j)]
    }
}
