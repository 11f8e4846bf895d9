//! The line for the bytes of the files as they are found.
ghost use Rattle.std.specs.Prelude.{◌≡◌};
ghost use Rattle.files.specs.Judging.{counted, LineFor};

use crate::lines::{Line, line_for};
use crate::pricing::price_files;

/// A file above 65,536 bytes counts as empty.
pub fn counted_bytes(file: &[u8]) -> &[u8]
    ensures { result.now ≡ counted file.now }
{
    if file.len() > 65_536 { &[] } else { file }
}

/// The line to print for a case and a plan.
pub fn judge_files(case: &[u8], plan: &[u8]) -> Line
    ensures { LineFor (counted case.now) (counted plan.now) result }
{
    line_for(price_files(counted_bytes(case), counted_bytes(plan)))
}
