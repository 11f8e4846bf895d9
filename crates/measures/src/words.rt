//! Numbers within a limit, and corners of one word.
ghost use Rattle.std.specs.Prelude.{◌≡◌};
ghost use Rattle.measures.specs.Words.{within, one_within};

// A number, where it is at most `most`.
pub(crate) fn within(number: u32, most: u32) -> Option<u32>
    ensures { result ≡ within most number }
{
    (number <= most).then_some(number)
}

/// The number in the words, where there is exactly one and it is at most `most`.
pub fn one_within(words: &[u64], most: u32) -> Option<u32>
    ensures { result ≡ one_within most words.now }
{
    let [word] = *words else {
        return None;
    };
    within(u32::try_from(word).ok()?, most)
}
