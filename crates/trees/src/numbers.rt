//! Numbers in a file, the low byte first.
ghost use Rattle.std.specs.Prelude.{◌≡◌, ◌+◌, ◌≤◌, length};
ghost use Rattle.trees.specs.Numbers.{short_at, word_at};

use byteorder::{ByteOrder, LittleEndian};

// Two bytes: as for leaves, one call of the library's reader, in the words of the crate.
pub(crate) fn short_at(bytes: &[u8], at: usize) -> u16
    requires { at + 2 ≤ length bytes.now }
    ensures { result ≡ short_at bytes.now at }
{
    LittleEndian::read_u16(&bytes[at..])
}

// Four bytes.
pub(crate) fn word_at(bytes: &[u8], at: usize) -> u32
    requires { at + 4 ≤ length bytes.now }
    ensures { result ≡ word_at bytes.now at }
{
    LittleEndian::read_u32(&bytes[at..])
}
