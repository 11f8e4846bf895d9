//! Why a leaf is not granted.
ghost use Rattle.std.specs.Prelude.{◌≡◌};
ghost use Rattle.leaf.specs.Faults.{leaf_denial};

use routing::denials::Denial;

#[derive(Debug, Clone, Copy, PartialEq, Eq)]
pub enum LeafFault {
    // The record is not of the length that its count says, or is no leaf's.
    Length,
    // The first field that is out of its range.
    Field { offset: usize },
    // The first entry that breaks the rule, and the first arc at which it does.
    Entry { from: u8, to: u8, offset: usize },
    // The first arc from the depot that breaks the rule.
    Depot { to: u8 },
    // The bound does not reach the cost.
    Bound,
}

// The number, arc and place that are handed back.
impl From<LeafFault> for Denial {
    ghost from_gives = { λ f r. r ≡ leaf_denial f };

    fn from(fault: LeafFault) -> Denial {
        match fault {
            LeafFault::Length => Denial::at(8, 0),
            LeafFault::Field { offset } => Denial::at(9, offset),
            LeafFault::Entry { from, to, offset } => Denial::on_arc(22, from, to, offset),
            LeafFault::Depot { to } => Denial::on_arc(23, 0, to, 0),
            LeafFault::Bound => Denial::at(24, 0),
        }
    }
}
