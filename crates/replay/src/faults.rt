//! Why a listing is not priced.
ghost use Rattle.std.specs.Prelude.{◌≡◌};
ghost use Rattle.replay.specs.Faults.{listing_denial};

use routing::denials::Denial;

#[derive(Clone, Copy, Debug, PartialEq, Eq)]
pub enum ListingFault {
    // A number above the customers, a route without customers, or a last number that is not 0.
    Misplaced { index: usize },
    // A customer that stands before.
    Repeated { index: usize },
    // The smallest customer that no route visits.
    Missing { customer: u8 },
    // No arc leads there.
    NoArc { from: u8, to: u8, index: usize },
    // No schedule reaches the arc's end.
    TooLate { from: u8, to: u8, index: usize },
    // The load passes the capacity.
    TooHeavy { from: u8, to: u8, index: usize },
    // Fewer routes than the least, or more than the most.
    FleetSize { routes: usize },
}

// The number, arc and place that are handed back.
impl From<ListingFault> for Denial {
    ghost from_gives = { λ f r. r ≡ listing_denial f };

    fn from(fault: ListingFault) -> Denial {
        match fault {
            ListingFault::Misplaced { index } => Denial::at(10, index),
            ListingFault::Repeated { index } => Denial::at(11, index),
            ListingFault::Missing { customer } => Denial::at(12, customer as usize),
            ListingFault::NoArc { from, to, index } => Denial::on_arc(13, from, to, index),
            ListingFault::TooLate { from, to, index } => Denial::on_arc(14, from, to, index),
            ListingFault::TooHeavy { from, to, index } => Denial::on_arc(15, from, to, index),
            ListingFault::FleetSize { routes } => Denial::at(16, routes),
        }
    }
}
