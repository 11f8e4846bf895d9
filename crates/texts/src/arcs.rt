//! Arc words: `-`, or a cost and a travel with a slash between.
ghost use Rattle.std.specs.Prelude.{◌≡◌, [], ◌==◌, IfSome, option_map, position};
ghost use Rattle.std.specs.List.{before_first, after_first};
ghost use Rattle.texts.specs.Arcs.{is_byte, is_slash, road_fields, as_fields, road_at, arc_at, arc_due};
ghost use Rattle.texts.specs.Reading.{state, judged};

use crate::faults::TextFault;
use crate::numbers::number_of;
use crate::reader::{Reader, Word};
use routing::cells::Road;

fn slash(word: &[u8]) -> Option<usize>
    ensures { result ≡ position is_slash word.now }
{
    word.iter().position(|b| *b == b'/')
}

// What stands before the first slash, and what after it.
fn sides(word: &[u8]) -> Option<(&[u8], &[u8])>
    ensures none { result ≡ None → after_first is_slash word.now ≡ [] }
    ensures some { IfSome result (λ s. (s.0.now ≡ before_first is_slash word.now) × (s.1.now ≡ after_first is_slash word.now)) }
{
    let slash = slash(word)?;
    Some((&word[..slash], &word[slash + 1..]))
}

impl Word<'_> {
    // Whether the word is this one byte.
    pub(crate) fn is_byte(self, byte: u8) -> bool
        ensures { result ≡ is_byte byte self.entry.bytes.now }
    {
        matches!(self.bytes, [b] if *b == byte)
    }

    // The cost and the travel that the word writes.
    fn road(self) -> Result<Road, TextFault>
        ensures { as_fields road_fields result ≡ road_at self.entry.at self.entry.bytes.now }
    {
        let form = TextFault::Form(self.at);
        let (cost, travel) = sides(self.bytes).ok_or(form)?;
        let cost = number_of(cost).ok_or(form)?;
        let travel = number_of(travel).ok_or(form)?;
        Road::new(cost, travel).ok_or(TextFault::Range(self.at))
    }

    // What the word says of an arc; on the diagonal there is none.
    fn arc(self, diagonal: bool) -> Result<Option<Road>, TextFault>
        ensures { as_fields (option_map road_fields) result ≡ arc_at diagonal self.entry.at self.entry.bytes.now }
    {
        if self.is_byte(b'-') {
            return Ok(None);
        }
        if diagonal {
            return Err(TextFault::Form(self.at));
        }
        self.road().map(Some)
    }
}

impl Reader<'_> {
    // The line's next word, the arc from `i` to `j`.
    pub(crate) fn next_arc(&mut self, i: usize, j: usize) -> Result<Option<Road>, TextFault>
        ensures { judged (option_map road_fields) result self.new ≡ arc_due i j (state self.old) }
    {
        self.next_word()?.arc(i == j)
    }
}
