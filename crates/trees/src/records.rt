//! A record, found by its pair in the directory.
ghost use Rattle.std.specs.Prelude.{◌≡◌, ◌+◌, ◌≤◌, length, IfSome};
ghost use Rattle.trees.specs.Tree.{record_answer, as_found};

use crate::numbers::{short_at, word_at};

/// Where a record begins in its file, and its bytes.
#[derive(Clone, Copy, Debug, PartialEq, Eq)]
pub struct Record<'a> {
    pub offset: usize,
    pub bytes: &'a [u8],
}

/// Record `k`; none where the directory has no such pair, or the part lies not within the file.
pub fn record_at(file: &[u8], k: usize) -> Option<Record<'_>>
    ensures value { as_found result ≡ record_answer file.now k }
    ensures within { IfSome result (λ r. r.offset + length r.bytes.now ≤ length file.now) }
{
    let whole = file.len().saturating_sub(8) / 8;
    if k >= whole || k >= short_at(file, 6) as usize {
        return None;
    }
    let at = 8 + 8 * k;
    let offset = word_at(file, at) as usize;
    let size = word_at(file, at + 4) as usize;
    let bytes = file.get(offset..offset + size)?;
    Some(Record { offset, bytes })
}
