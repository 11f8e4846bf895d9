//! Whether a listing visits every customer exactly once.
ghost use Rattle.std.specs.Prelude.{◌≡◌, ℕ, ◌<◌, ◌≤◌, false, ◌&&◌, List, [], length, None, Ok, Err, MatchResult, nat_lt, slice_index_or};
ghost use Rattle.routing.specs.Routes.{count};
ghost use Rattle.replay.specs.Listing.{repeated, missing};
ghost use Rattle.replay.specs.Answer.{once_answer, unless};

use crate::faults::ListingFault;

// Whether a number is a customer that was seen.
fn is_repeat(number: u8, seen: &[bool; 256]) -> bool
    ensures { result ≡ (nat_lt 0 number && slice_index_or seen.now number false) }
{
    number > 0 && seen[number as usize]
}

// Which customers a listing visits, or the first that it visits twice: a table of all bytes, since there is no heap.
fn visited(listing: &[u8]) -> Result<[bool; 256], ListingFault>
    ensures { MatchResult result (λ seen. (repeated [] 0 listing.now ≡ None) × ((c : ℕ) → 1 ≤ c → c < 256 → slice_index_or seen c false ≡ nat_lt 0 (count c listing.now))) (λ f. unless (repeated [] 0 listing.now) ListingFault.Repeated (Ok tt) ≡ Err f) }
{
    let mut seen = [false; 256];
    for (index, number) in listing.iter().enumerate() {
        if is_repeat(*number, &seen) {
            return Err(ListingFault::Repeated { index });
        }
        seen[*number as usize] = true;
    }
    Ok(seen)
}

// The smallest customer that was not seen. `find` was tried: no lemma tells what it gives over `1..=customers`.
fn first_missing(customers: u8, seen: &[bool; 256]) -> Option<u8>
    ensures { (l : List ℕ) → ((c : ℕ) → 1 ≤ c → c < 256 → slice_index_or seen.now c false ≡ nat_lt 0 (count c l)) → result ≡ missing l 1 customers }
{
    for c in 1..=customers {
        if !seen[c as usize] {
            return Some(c);
        }
    }
    None
}

/// Denies the first customer that is visited twice, else the smallest that is not visited.
pub fn each_once(customers: u8, listing: &[u8]) -> Result<(), ListingFault>
    ensures { result ≡ once_answer customers listing.now }
{
    let seen = visited(listing)?;
    if let Some(customer) = first_missing(customers, &seen) {
        return Err(ListingFault::Missing { customer });
    }
    Ok(())
}
