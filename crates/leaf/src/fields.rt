//! The fields of a leaf record: numbers of a byte, of two and of eight, the least part first.
ghost use Rattle.std.specs.Prelude.{◌≡◌, ◌+◌, ◌*◌, ◌≤◌, length};
ghost use Rattle.leaf.specs.Record.{little, words};
ghost use Rattle.leaf.specs.Fields.{read_scale, read_amount, read_place};

use crate::faults::LeafFault;
use byteorder::{ByteOrder, LittleEndian};

// The number of two bytes.
#[tactic(auto, unfolding(crate::specs::Record::little))]
pub(crate) fn short_at(bytes: &[u8], at: usize) -> u16
    requires { at + 2 ≤ length bytes.now }
    ensures { result ≡ little bytes.now at 2 }
{
    LittleEndian::read_u16(&bytes[at..])
}

// The scale, where it is in its range.
pub(crate) fn scale_at(bytes: &[u8], at: usize) -> Result<u16, LeafFault>
    requires { at + 2 ≤ length bytes.now }
    ensures { result ≡ read_scale bytes.now at }
{
    let scale = short_at(bytes, at);
    if !(1..=1000).contains(&scale) {
        return Err(LeafFault::Field { offset: at });
    }
    Ok(scale)
}

// A signed number of eight bytes, where it is within a limit.
#[tactic(auto, unfolding(crate::specs::Record::little))]
pub(crate) fn amount_at(bytes: &[u8], at: usize, limit: u64) -> Result<i64, LeafFault>
    requires { at + 8 ≤ length bytes.now }
    ensures { result ≡ read_amount limit bytes.now at }
{
    let amount = LittleEndian::read_i64(&bytes[at..]);
    if amount.unsigned_abs() > limit {
        return Err(LeafFault::Field { offset: at });
    }
    Ok(amount)
}

// A customer's number, where there is such a customer.
pub(crate) fn place_at(bytes: &[u8], at: usize, customers: u8) -> Result<u8, LeafFault>
    requires { at + 1 ≤ length bytes.now }
    ensures { result ≡ read_place customers bytes.now at }
{
    let place = bytes[at];
    if !(1..=customers).contains(&place) {
        return Err(LeafFault::Field { offset: at });
    }
    Ok(place)
}

// The numbers of a corner, as many as there is room for.
pub(crate) fn words_at(bytes: &[u8], at: usize, room: &mut [u64])
    requires { at + 8 * length room.old ≤ length bytes.now }
    ensures { room.new ≡ words bytes.now at (length room.old) }
{
    LittleEndian::read_u64_into(&bytes[at..at + 8 * room.len()], room);
}
