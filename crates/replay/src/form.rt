//! The form of a listing: routes of customers, each ended by a 0.
ghost use Rattle.std.specs.Prelude.{◌≡◌, false};
ghost use Rattle.replay.specs.Listing.{breaks, misplaced};
ghost use Rattle.replay.specs.Answer.{form_answer};

use crate::faults::ListingFault;

// Whether a number above the customers, or a 0 before the route's first customer, breaks the form.
fn is_misplaced(customers: u8, begun: bool, number: u8) -> bool
    ensures { result ≡ breaks customers begun number }
{
    number > customers || number == 0 && !begun
}

// The first index that breaks the form.
fn first_misplaced(customers: u8, listing: &[u8]) -> Option<usize>
    ensures { result ≡ misplaced customers false 0 listing.now }
{
    let mut begun = false;
    for (k, j) in listing.iter().enumerate() {
        if is_misplaced(customers, begun, *j) {
            return Some(k);
        }
        begun = *j != 0;
    }
    if begun || listing.is_empty() {
        return Some(listing.len().saturating_sub(1));
    }
    None
}

/// Denies a listing that is not made of routes, each with a customer and ended by a 0.
pub fn well_formed(customers: u8, listing: &[u8]) -> Result<(), ListingFault>
    ensures { result ≡ form_answer customers listing.now }
{
    if let Some(index) = first_misplaced(customers, listing) {
        return Err(ListingFault::Misplaced { index });
    }
    Ok(())
}
