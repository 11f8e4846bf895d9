//! Why a tree file is refused before its records are read.
ghost use Rattle.std.specs.Prelude.{◌≡◌};
ghost use Rattle.trees.specs.Faults.{tree_denial};

use routing::denials::Denial;

#[derive(Clone, Copy, Debug, PartialEq, Eq)]
pub enum TreeFault {
    // Too short for a head, or another mark.
    Mark,
    // The kind, the number of customers or the count of records, at its offset.
    Head { at: usize },
    // The directory's pair at an offset.
    Pair { at: usize },
}

// The number, arc and place that are handed back.
impl From<TreeFault> for Denial {
    ghost from_gives = { λ f r. r ≡ tree_denial f };

    fn from(fault: TreeFault) -> Denial {
        match fault {
            TreeFault::Mark => Denial::at(5, 0),
            TreeFault::Head { at } => Denial::at(6, at),
            TreeFault::Pair { at } => Denial::at(7, at),
        }
    }
}
