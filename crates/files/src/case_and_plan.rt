//! Reading a case and a plan, and what they say.
ghost use Rattle.std.specs.Prelude.{◌≡◌, ℕ, List, [], replicate, None, Err, OnErr};
ghost use Rattle.routing.specs.Tables.{table_meaning};
ghost use Rattle.texts.specs.Plans.{plan_answer};
ghost use Rattle.files.specs.Reading.{means, lists, Denied, Filled, TextsRead};

use crate::faults::RefusedText;
use crate::held::Texts;
use arrayvec::ArrayVec;
use routing::cells::{Fleet, Head, Place};
use routing::tables::TableNetwork;
use texts::cases::read_case;
use texts::faults::TextFault;
use texts::plans::read_plan;

// Which text is refused first, where the plan is: the case, if that is refused too.
fn first_refused(case: &[u8], plan_fault: TextFault) -> RefusedText
    ensures { (plan : List ℕ) → plan_answer plan 120 ≡ Err plan_fault → Denied case.now plan result }
{
    let mut places = [Place::BLANK; 61];
    let mut arcs = [None; 3721];
    match read_case(case, &mut places, &mut arcs) {
        Err(fault) => RefusedText::Case(fault),
        Ok(_) => RefusedText::Plan(plan_fault),
    }
}

impl Texts {
    /// Room for any case and any plan: a network of one customer with no arc, and an empty listing.
    pub fn blank() -> Texts
        ensures listing { lists result ≡ [] }
        ensures customers { (means result).customers ≡ 1 }
        ensures arcs { result.arcs ≡ replicate 3721 None }
    {
        Texts {
            head: Head {
                customers: 1,
                capacity: 0,
                fleet: Fleet { least: 0, most: 0 },
            },
            places: [Place::BLANK; 61],
            arcs: [None; 3721],
            listing: ArrayVec::new(),
        }
    }

    /// Reads a case and a plan where they are to stand, since tables that are handed back are moved; or says which text is
    /// refused first, and why. A refusal changes nothing: so the plan, which is short, is read first.
    pub fn fill(&mut self, case: &[u8], plan: &[u8]) -> Result<(), RefusedText>
        ensures read { Filled case.now plan.now self.new result }
        ensures stays { OnErr result (self.new ≡ self.old) }
    {
        let mut numbers = [0; 120];
        let count = match read_plan(plan, &mut numbers) {
            Ok(count) => count,
            Err(fault) => return Err(first_refused(case, fault)),
        };
        self.head = read_case(case, &mut self.places, &mut self.arcs).map_err(RefusedText::Case)?;
        self.listing = ArrayVec::from(numbers);
        self.listing.truncate(count);
        Ok(())
    }

    /// Reads a case and a plan, or says which text is refused first, and why. The tables have room for any, since there is
    /// no heap.
    pub fn read(case: &[u8], plan: &[u8]) -> Result<Texts, RefusedText>
        ensures { TextsRead case.now plan.now result }
    {
        let mut texts = Texts::blank();
        texts.fill(case, plan)?;
        Ok(texts)
    }

    /// The network of the case.
    pub fn network(&self) -> TableNetwork<'_>
        ensures { table_meaning result.head result.places.now result.arcs.now ≡ means self.now }
    {
        TableNetwork {
            head: self.head,
            places: &self.places,
            arcs: &self.arcs,
        }
    }

    /// The plan's listing.
    pub fn listing(&self) -> &[u8]
        ensures { result.now ≡ lists self.now }
    {
        self.listing.as_slice()
    }
}
