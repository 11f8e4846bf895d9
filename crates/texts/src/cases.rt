//! Reading a case into tables that are lent.
ghost use Rattle.std.specs.Prelude.{◌≡◌};
ghost use Rattle.texts.specs.Cases.{case_judged, CaseJudged, CaseRead};
ghost use Rattle.texts.specs.Written.{CasesAsWritten};

use crate::faults::TextFault;
use crate::reader::Reader;
use routing::cells::{Head, Place, Road};

// The whole text judged: its head, with the places and the arcs in the fronts of the two tables.
#[tactic(auto, unfolding(crate::specs::Cases::case_judged))]
fn judge_case(
    text: &[u8],
    places: &mut [Place; 61],
    arcs: &mut [Option<Road>; 3721],
) -> Result<Head, TextFault>
    ensures { CaseJudged result places.new arcs.new (case_judged text.now) }
{
    let mut reader = Reader::new(text);
    let head = reader.next_head()?;
    let side = head.customers as usize + 1;
    reader.next_places(&mut places[..side])?;
    reader.next_rows(side, &mut arcs[..side * side])?;
    reader.finish()?;
    Ok(head)
}

/// Reads a case: its head is answered, and its places and arcs are written to the fronts of the
/// tables, the arc from i to j at i times the number of places, plus j. A refused text writes nothing.
/// The text is judged aside, in tables for the largest case, since there is no heap; the lent tables' lengths are looked at last.
pub fn read_case(
    text: &[u8],
    places: &mut [Place],
    arcs: &mut [Option<Road>],
) -> Result<Head, TextFault>
    ensures answer { CaseRead text.now places.old arcs.old result places.new arcs.new }
    ensures written { CasesAsWritten text.now }
{
    let mut stops = [Place::BLANK; 61];
    let mut roads: [Option<Road>; 3721] = [None; 3721];
    let head = judge_case(text, &mut stops, &mut roads)?;
    let side = head.customers as usize + 1;
    if places.len() < side || arcs.len() < side * side {
        return Err(TextFault::ShortTable);
    }
    places[..side].copy_from_slice(&stops[..side]);
    arcs[..side * side].copy_from_slice(&roads[..side * side]);
    Ok(head)
}
