//! The plan's price on the case, from the bytes of both files.
ghost use Rattle.std.specs.Prelude.{List, ℕ};
ghost use Rattle.files.specs.Pricing.{FilesPriced, listing_answer};
ghost use Rattle.files.specs.Reading.{Granted};

use crate::faults::FileFault;
use crate::held::Texts;
use replay::faults::ListingFault;
use replay::pricing::price;
use replay::vans::Priced;

// The price of a plan on its case, whatever the texts were.
fn price_read(texts: &Texts) -> Result<Priced, ListingFault>
    ensures { (case plan : List ℕ) → Granted case plan texts.now → FilesPriced case plan (listing_answer result) }
{
    price(&texts.network(), texts.listing())
}

/// The cost and the routes of the plan on the case's network, or the first fault: the case text's, the plan text's, the
/// listing's.
pub fn price_files(case: &[u8], plan: &[u8]) -> Result<Priced, FileFault>
    ensures { FilesPriced case.now plan.now result }
{
    let mut texts = Texts::blank();
    texts.fill(case, plan)?;
    Ok(price_read(&texts)?)
}
