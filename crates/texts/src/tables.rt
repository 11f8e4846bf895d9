//! The tables of a case: its places, and its arcs row by row.
ghost use Rattle.std.specs.Prelude.{◌≡◌, ◌*◌, map, length, option_map};
ghost use Rattle.texts.specs.Arcs.{arc_due, road_fields};
ghost use Rattle.texts.specs.Judging.{times};
ghost use Rattle.texts.specs.Lines.{place_fields, row_due};
ghost use Rattle.texts.specs.Reading.{state, judged};
ghost use Rattle.texts.specs.Tables.{places_due, rows_due};

use crate::faults::TextFault;
use crate::reader::Reader;
use routing::cells::{Place, Road};

impl Reader<'_> {
    // A line for each place, the depot's first.
    #[tactic(auto, using(crate::proofs::Repeats::filled_more, crate::proofs::Repeats::filled_fault))]
    pub(crate) fn next_places(&mut self, places: &mut [Place]) -> Result<(), TextFault>
        ensures { judged (λ u. map place_fields places.new) result self.new ≡ places_due (length places.old) (state self.old) }
    {
        for (i, place) in places.iter_mut().enumerate() {
            *place = self.next_place(i)?;
        }
        Ok(())
    }

    // The arcs from place `i`, a word for each place. The loop is that of the places: over a step as a closure that changes
    // the reader it would be no plainer.
    #[tactic(auto, using(crate::proofs::Repeats::filled_more, crate::proofs::Repeats::filled_fault))]
    fn next_arcs(&mut self, i: usize, row: &mut [Option<Road>]) -> Result<(), TextFault>
        ensures { judged (λ u. map (option_map road_fields) row.new) result self.new ≡ times (arc_due i) 0 (length row.old) (state self.old) }
    {
        for (j, arc) in row.iter_mut().enumerate() {
            *arc = self.next_arc(i, j)?;
        }
        Ok(())
    }

    fn next_row(&mut self, i: usize, row: &mut [Option<Road>]) -> Result<(), TextFault>
        ensures { judged (λ u. map (option_map road_fields) row.new) result self.new ≡ row_due (length row.old) i (state self.old) }
    {
        self.next_arcs(i, row)?;
        self.next_line()
    }

    // The arcs from each place in turn. The rows are cut by index: after `chunks_exact_mut` no proof
    // knows the cells.
    #[tactic(auto, using(crate::proofs::Repeats::rows_more, crate::proofs::Repeats::rows_fault, crate::proofs::Repeats::row_fits, crate::proofs::Repeats::lent_row))]
    pub(crate) fn next_rows(
        &mut self,
        side: usize,
        arcs: &mut [Option<Road>],
    ) -> Result<(), TextFault>
        requires { length arcs.old ≡ side * side }
        ensures { judged (λ u. map (option_map road_fields) arcs.new) result self.new ≡ rows_due side (state self.old) }
    {
        for i in 0..side {
            let start = i * side;
            self.next_row(i, &mut arcs[start..start + side])?;
        }
        Ok(())
    }
}
