//! A reader over a text: past spaces and line feeds, over a word, over a line's end.
ghost use Rattle.std.specs.Prelude.{◌≡◌, ℕ, Bool, ◌+◌, ◌^◌, ◌<◌, ◌≤◌, ◌∷◌, IfSome, length, take, drop};
ghost use Rattle.std.specs.List.{prefix_len};
ghost use Rattle.texts.specs.Tokens.{word, space, blank, letter, words};

use crate::faults::TextFault;

// A word's bytes, and the offset of the first.
#[derive(Clone, Copy)]
pub(crate) struct Word<'a> {
    pub bytes: &'a [u8],
    pub at: usize,
}

#[derive(Drop)]
pub(crate) struct Reader<'a> {
    // What is still to be read.
    rest: &'a [u8],
    // Its offset in the text.
    at: usize,
    ghost long: { at + length rest.now < 2 ^ 64 },
}

fn is_blank(b: u8) -> bool
    ensures { result ≡ blank b }
{
    b == b' ' || b == b'\n'
}

// How many bytes in front pass the test.
fn count_while<F: Fn(u8) -> bool>(bytes: &[u8], test: F) -> usize
    requires { (b : ℕ) → F.pre test b }
    ensures all { (p : ℕ → Bool) → ((b : ℕ) (r : Bool) → F.post test b r → r ≡ p b) → result ≡ prefix_len p bytes.now }
    ensures within { result ≤ length bytes.now }
{
    bytes.iter().take_while(|b| test(**b)).count()
}

impl<'a> Reader<'a> {
    ghost use Rattle.texts.specs.Judging.{start, word_due, line_end, nothing_after};
    ghost use Rattle.texts.specs.Reading.{state, judged, word_fields, listed_by};

    pub(crate) fn new(text: &'a [u8]) -> Reader<'a>
        ensures { state result ≡ start text.now }
    {
        Reader { rest: text, at: 0 }
    }

    // Passes over this many bytes, which are handed back.
    fn pass(&mut self, count: usize) -> Word<'a>
        requires { count ≤ length self.old.rest.now }
        ensures word { word_fields result ≡ (self.old.at, take count self.old.rest.now) }
        ensures rest { self.new.rest.now ≡ drop count self.old.rest.now }
        ensures at { self.new.at ≡ self.old.at + count }
    {
        let (bytes, rest) = self.rest.split_at(count);
        let at = self.at;
        self.rest = rest;
        self.at += count;
        Word { bytes, at }
    }

    #[tactic(auto, using(crate::proofs::Scans::spaces_passed, crate::proofs::Scans::none_passes))]
    fn skip_spaces(&mut self)
        ensures tokens { (state self.new).tokens ≡ (state self.old).tokens }
        ensures end { (state self.new).end ≡ (state self.old).end }
        ensures stops { prefix_len space self.new.rest.now ≡ 0 }
    {
        self.pass(count_while(self.rest, |b| b == b' '));
    }

    #[tactic(auto, using(crate::proofs::Scans::blanks_passed, crate::proofs::Scans::none_passes))]
    fn skip_blanks(&mut self)
        ensures words { words (state self.new).tokens ≡ words (state self.old).tokens }
        ensures stops { prefix_len blank self.new.rest.now ≡ 0 }
    {
        self.pass(count_while(self.rest, is_blank));
    }

    // The word that begins here, if one does.
    #[tactic(auto, using(crate::proofs::Scans::word_found))]
    fn word_here(&mut self) -> Option<Word<'a>>
        ensures none { result ≡ None → (prefix_len letter self.old.rest.now ≡ 0) × (self.new.at ≡ self.old.at) }
        ensures some { IfSome result (λ w. (state self.old).tokens ≡ word w.at w.bytes.now ∷ (state self.new).tokens) }
        ensures at { IfSome result (λ w. self.new.at ≡ w.at + length w.bytes.now) }
        ensures end { (state self.new).end ≡ (state self.old).end }
    {
        let length = count_while(self.rest, |b| !is_blank(b));
        if length == 0 {
            None
        } else {
            Some(self.pass(length))
        }
    }

    // The line's next word.
    #[tactic(auto, using(crate::proofs::Scans::no_word))]
    pub(crate) fn next_word(&mut self) -> Result<Word<'a>, TextFault>
        ensures { judged word_fields result self.new ≡ word_due (state self.old) }
    {
        self.skip_spaces();
        self.word_here().ok_or(TextFault::Count(self.at))
    }

    // The next word, in whichever line.
    #[tactic(auto, using(crate::proofs::Scans::none_left))]
    pub(crate) fn next_listed(&mut self) -> Option<Word<'a>>
        ensures { words (state self.old).tokens ≡ listed_by result (words (state self.new).tokens) }
    {
        self.skip_blanks();
        self.word_here()
    }

    // Passes over the line's end, where no word is left in the line.
    pub(crate) fn next_line(&mut self) -> Result<(), TextFault>
        ensures { judged (λ u. u) result self.new ≡ line_end (state self.old) }
    {
        self.skip_spaces();
        if self.rest.starts_with(b"\n") {
            self.pass(1);
            Ok(())
        } else {
            Err(TextFault::Count(self.at))
        }
    }

    // Refuses what is left.
    pub(crate) fn finish(&self) -> Result<(), TextFault>
        ensures { result ≡ nothing_after (state self.now) }
    {
        if self.rest.is_empty() {
            Ok(())
        } else {
            Err(TextFault::Count(self.at))
        }
    }
}
