//! The lines of a case: its head and a place.
ghost use Rattle.std.specs.Prelude.{◌≡◌};
ghost use Rattle.texts.specs.Lines.{mark_due, head_due, head_fields, place_due, place_fields};
ghost use Rattle.texts.specs.Reading.{state, judged};

use crate::faults::TextFault;
use crate::reader::Reader;
use routing::cells::{Fleet, Head, Place};

impl Reader<'_> {
    // The word `M`.
    fn next_mark(&mut self) -> Result<(), TextFault>
        ensures { judged (λ u. u) result self.new ≡ mark_due (state self.old) }
    {
        let word = self.next_word()?;
        if word.is_byte(b'M') {
            Ok(())
        } else {
            Err(TextFault::Form(word.at))
        }
    }

    // `M`, the number of customers, the capacity, the least and the most vans.
    pub(crate) fn next_head(&mut self) -> Result<Head, TextFault>
        ensures { judged head_fields result self.new ≡ head_due (state self.old) }
    {
        self.next_mark()?;
        let customers = self.next_number(1, 60)? as u8;
        let capacity = self.next_number(0, 10_000)?;
        let least = self.next_number(0, 60)?;
        let most = self.next_number(least, 60)? as u8;
        self.next_line()?;
        Ok(Head {
            customers,
            capacity,
            fleet: Fleet {
                least: least as u8,
                most,
            },
        })
    }

    // The load, opening, closing and service of place `i`; the depot, place 0, has neither load nor
    // service.
    pub(crate) fn next_place(&mut self, i: usize) -> Result<Place, TextFault>
        ensures { judged place_fields result self.new ≡ place_due i (state self.old) }
    {
        let load = self.next_number(0, if i == 0 { 0 } else { 10_000 })?;
        let opening = self.next_number(0, 60_000)?;
        let closing = self.next_number(opening, 60_000)?;
        let service = self.next_number(0, if i == 0 { 0 } else { 60_000 })?;
        self.next_line()?;
        Ok(Place {
            load,
            opening,
            closing,
            service,
        })
    }
}
