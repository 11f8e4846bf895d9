//! Why a call of the check is denied, with the fault of a listing or a leaf carried whole.
ghost use Rattle.std.specs.Prelude.{◌≡◌};
ghost use Rattle.checking.specs.declared.faults.CheckFault.TheVariants.{Full, Leaf, Listing};
ghost use Rattle.checking.specs.Faults.{check_denial};

use decisions::full::Full;
use leaf::faults::LeafFault;
use replay::faults::ListingFault;
use routing::denials::Denial;

#[derive(Clone, Copy, Debug, PartialEq, Eq)]
pub enum CheckFault {
    // The listing is not one of a plan.
    Listing(ListingFault),
    // A plan at most that dear is held.
    NotCheaper { cost: u32 },
    // The record is not that of a fork.
    NotFork,
    // The tree is finished.
    Finished,
    // The fork names a place above the customers, or one place twice.
    NoSuchArc,
    // 64 decisions are held.
    Full,
    // No plan is held.
    NoPlan,
    // The leaf is denied.
    Leaf(LeafFault),
}

// By hand, since a clause has to name the fault, and a derived `From` says nothing of it.
impl From<ListingFault> for CheckFault {
    ghost from_gives = { λ f r. r ≡ Listing f };

    fn from(fault: ListingFault) -> CheckFault {
        CheckFault::Listing(fault)
    }
}

impl From<LeafFault> for CheckFault {
    ghost from_gives = { λ f r. r ≡ Leaf f };

    fn from(fault: LeafFault) -> CheckFault {
        CheckFault::Leaf(fault)
    }
}

impl From<Full> for CheckFault {
    ghost from_gives = { λ _ r. r ≡ Full };

    fn from(_full: Full) -> CheckFault {
        CheckFault::Full
    }
}

// The number, arc and place that are handed back, a record's offsets counted from its first byte.
impl From<CheckFault> for Denial {
    ghost from_gives = { λ f r. r ≡ check_denial f };

    fn from(fault: CheckFault) -> Denial {
        match fault {
            CheckFault::Listing(fault) => Denial::from(fault),
            CheckFault::NotCheaper { cost } => Denial::at(17, cost as usize),
            CheckFault::NotFork => Denial::at(8, 0),
            CheckFault::Finished => Denial::at(20, 0),
            CheckFault::NoSuchArc => Denial::at(18, 0),
            CheckFault::Full => Denial::at(19, 0),
            CheckFault::NoPlan => Denial::at(21, 0),
            CheckFault::Leaf(fault) => Denial::from(fault),
        }
    }
}
