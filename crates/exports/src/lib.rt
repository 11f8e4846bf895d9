//! The judge for programs in other languages to link.
#![tactic(auto)]

ghost use Rattle.exports.specs.Exported.{Exported};

use std::alloc::Global;
use verdict::judging::judge;

// Writes the line for three files into the front of a buffer, and answers its length. Where there is no memory for it, or
// the buffer is too short, it answers 0 and writes nothing.
#[unsafe(no_mangle)]
pub extern "C" fn demgriv_judge(
    heap: Global,
    case: &[u8],
    plan: &[u8],
    tree: &[u8],
    buffer: &mut [u8],
) -> usize
    ensures { Exported case.now plan.now tree.now buffer.old buffer.new result }
{
    let line = judge(case, plan, tree);
    let Ok(text) = format!(in heap; "{line}") else {
        return 0;
    };
    let bytes = text.as_bytes();
    let length = bytes.len();
    if length > buffer.len() {
        return 0;
    }
    let front = &mut buffer[0..length];
    front.copy_from_slice(bytes);
    length
}
