//! Number words: 1 to 9 digits without a needless zero in front.
ghost use Rattle.std.specs.Prelude.{◌≡◌, ◌≤◌, IfOk};
ghost use Rattle.texts.specs.Numbers.{shaped, numeral, within, number_due};
ghost use Rattle.texts.specs.Reading.{state, judged};

use crate::faults::TextFault;
use crate::reader::{Reader, Word};

// 1 to 9 bytes, the first of several no zero.
fn is_shaped(word: &[u8]) -> bool
    ensures { result ≡ shaped word.now }
{
    (1..=9).contains(&word.len()) && (word.len() == 1 || word[0] != b'0')
}

// By hand: the library's `parse` takes a sign, so the digits are looked at once more, and again for a text; of the largest
// cases that made the reading half as slow again.
pub(crate) fn number_of(word: &[u8]) -> Option<u32>
    ensures { result ≡ numeral word.now }
{
    if !is_shaped(word) {
        return None;
    }
    let mut value: u32 = 0;
    for b in word {
        if !b.is_ascii_digit() {
            return None;
        }
        value = value * 10 + (*b - b'0') as u32;
    }
    Some(value)
}

impl Word<'_> {
    // The number that the word writes, from `low` to `high`.
    pub(crate) fn number_within(self, low: u32, high: u32) -> Result<u32, TextFault>
        ensures answer { result ≡ within low high self.entry.at (numeral self.entry.bytes.now) }
        ensures bounded { IfOk result (λ n. (low ≤ n) × (n ≤ high)) }
    {
        let number = number_of(self.bytes).ok_or(TextFault::Form(self.at))?;
        if !(low..=high).contains(&number) {
            return Err(TextFault::Range(self.at));
        }
        Ok(number)
    }
}

impl Reader<'_> {
    // The line's next word, a number from `low` to `high`.
    pub(crate) fn next_number(&mut self, low: u32, high: u32) -> Result<u32, TextFault>
        ensures answer { judged (λ n. n) result self.new ≡ number_due low high (state self.old) }
        ensures bounded { IfOk result (λ n. (low ≤ n) × (n ≤ high)) }
    {
        self.next_word()?.number_within(low, high)
    }
}
