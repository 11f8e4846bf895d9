//! The directory: for each record a pair of its offset and its length.
ghost use Rattle.std.specs.Prelude.{◌≡◌, ◌+◌, ◌*◌};
ghost use Rattle.trees.specs.Tree.{pair_answer, pairs_answer};

use crate::faults::TreeFault;
use crate::numbers::word_at;

// Where record `k` ends, if the one before ended at `from`.
fn pair_end(bytes: &[u8], k: u16, from: usize, last: bool) -> Result<usize, TreeFault>
    ensures { result ≡ pair_answer bytes.now k from last }
{
    let at = 8 + 8 * k as usize;
    if bytes.len() < at + 8 || word_at(bytes, at) as usize != from {
        return Err(TreeFault::Pair { at });
    }
    let size = word_at(bytes, at + 4) as usize;
    if size == 0 || last && from + size != bytes.len() {
        return Err(TreeFault::Pair { at });
    }
    Ok(from + size)
}

// Each record starts where the one before ended, and the last ends the file.
pub(crate) fn judge_pairs(bytes: &[u8], count: u16) -> Result<(), TreeFault>
    ensures { result ≡ pairs_answer bytes.now 0 (8 + 8 * count) count }
{
    let mut from = 8 + 8 * count as usize;
    for k in 0..count {
        from = pair_end(bytes, k, from, k + 1 == count)?;
    }
    Ok(())
}
