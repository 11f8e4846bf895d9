//! Reading a plan's listing into a list that is lent.
ghost use Rattle.std.specs.Prelude.{◌≡◌, Ok, Err, MatchResult};
ghost use Rattle.texts.specs.Plans.{plan_judged, PlanRead};
ghost use Rattle.texts.specs.Written.{PlansAsWritten};

use crate::faults::TextFault;
use crate::reader::Reader;
use arrayvec::ArrayVec;

// The numbers that the whole text lists.
#[tactic(auto, using(crate::proofs::Listings::one_more))]
fn judge_plan(text: &[u8]) -> Result<ArrayVec<u8, 120>, TextFault>
    ensures { MatchResult result (λ ns. plan_judged text.now ≡ Ok ns.items) (λ f. plan_judged text.now ≡ Err f) }
{
    let mut reader = Reader::new(text);
    let mut numbers = ArrayVec::new();
    while let Some(word) = reader.next_listed() {
        if numbers.is_full() {
            return Err(TextFault::Count(word.at));
        }
        numbers.push(word.number_within(0, 255)? as u8);
    }
    Ok(numbers)
}

/// Reads a listing of at most 120 numbers to the list's front; the answer is how many there are.
/// A refused text writes nothing: the text is judged aside, in room for 120, since there is no heap; the list's length is looked at last.
pub fn read_plan(text: &[u8], listing: &mut [u8]) -> Result<usize, TextFault>
    ensures answer { PlanRead text.now listing.old result listing.new }
    ensures written { PlansAsWritten text.now }
{
    let numbers = judge_plan(text)?;
    let count = numbers.len();
    if listing.len() < 120 {
        return Err(TextFault::ShortTable);
    }
    listing[..count].copy_from_slice(numbers.as_slice());
    Ok(count)
}
