//! Reading a leaf record: its length, then field by field.
ghost use Rattle.std.specs.Prelude.{◌≡◌, ℕ, ◌+◌, ◌*◌, ◌^◌, ◌<◌, ◌≤◌, true, false, length, Ok, Err, Result, MatchResult};
ghost use Rattle.leaf.specs.declared.faults.LeafFault.{LeafFault};
ghost use Rattle.leaf.specs.declared.faults.LeafFault.TheVariants.{Length};
ghost use Rattle.leaf.specs.Record.{entry_count, entry_size, entries_at, words};
ghost use Rattle.leaf.specs.Fields.{read_amount, read_corner, read_entry, read_each, well_sized};
ghost use Rattle.leaf.specs.Stored.{read_located};

use crate::faults::LeafFault;
use crate::fields::{amount_at, place_at, short_at, words_at};
use crate::potentials::Potential;
use measures::measure::Measure;

// How many entries the record has, where it is a leaf's and of the length that its count says.
pub(crate) fn count_entries(words: usize, customers: u8, bytes: &[u8]) -> Result<u16, LeafFault>
    requires { words ≤ 100 }
    ensures { MatchResult result (λ count. (well_sized words customers bytes.now ≡ true) × (count ≡ entry_count customers bytes.now)) (λ f. (well_sized words customers bytes.now ≡ false) × (f ≡ Length)) }
{
    let [b'L', ..] = bytes else {
        return Err(LeafFault::Length);
    };
    let count_at = 11 + 8 * customers as usize;
    if bytes.len() < count_at + 2 {
        return Err(LeafFault::Length);
    }
    let count = short_at(bytes, count_at);
    if bytes.len() != count_at + 2 + count as usize * (9 + 8 * words) {
        return Err(LeafFault::Length);
    }
    Ok(count)
}

// Reads fields of one kind, as many as there is room for, each of so many bytes from an offset on.
fn read_each<T: Copy, F: Fn(usize) -> Result<T, LeafFault>>(
    room: &mut [T],
    at: usize,
    size: usize,
    read: F,
) -> Result<(), LeafFault>
    requires callable { (k : ℕ) → k < length room.old → F.pre read (at + size * k) }
    requires fits { at + size * length room.old < 2 ^ 64 }
    ensures { (each : ℕ → Result T LeafFault) → ((i : ℕ) (r : Result T LeafFault) → i < 2 ^ 64 → F.post read i r → r ≡ each i) → MatchResult result (λ _. read_each each at size (length room.old) ≡ Ok room.new) (λ f. read_each each at size (length room.old) ≡ Err f) }
{
    for (k, slot) in room.iter_mut().enumerate() {
        *slot = read(at + size * k)?;
    }
    Ok(())
}

// The duals, as many as there is room for.
pub(crate) fn read_duals(bytes: &[u8], room: &mut [i64]) -> Result<(), LeafFault>
    requires { 11 + 8 * length room.old ≤ length bytes.now }
    ensures { MatchResult result (λ _. read_each (read_amount 1000000000000 bytes.now) 11 8 (length room.old) ≡ Ok room.new) (λ f. read_each (read_amount 1000000000000 bytes.now) 11 8 (length room.old) ≡ Err f) }
{
    read_each(room, 11, 8, |at| amount_at(bytes, at, 1_000_000_000_000))
}

// The corner whose words stand from an offset on, with room for so many words.
fn corner_in<M: Measure, const ROOM: usize>(
    measure: &M,
    bytes: &[u8],
    at: usize,
) -> Result<M::State, LeafFault>
    requires inside { at + 8 * (M.Measure.meaning measure.now).words ≤ length bytes.now }
    requires enough { (M.Measure.meaning measure.now).words ≤ ROOM }
    requires few { ROOM ≤ 100 }
    ensures { let μ = M.Measure.meaning measure.now in result ≡ read_corner (μ.read (words bytes.now at μ.words)) at }
{
    let mut room = [0; ROOM];
    let words = &mut room[..measure.words()];
    words_at(bytes, at, words);
    measure.read(words).ok_or(LeafFault::Field { offset: at })
}

// The corner whose words stand from an offset on: most take few words, and the room is cleared for each.
pub(crate) fn corner_at<M: Measure>(
    measure: &M,
    bytes: &[u8],
    at: usize,
) -> Result<M::State, LeafFault>
    requires { at + 8 * (M.Measure.meaning measure.now).words ≤ length bytes.now }
    ensures { let μ = M.Measure.meaning measure.now in result ≡ read_corner (μ.read (words bytes.now at μ.words)) at }
{
    if measure.words() <= 4 {
        corner_in::<M, 4>(measure, bytes, at)
    } else {
        corner_in::<M, 100>(measure, bytes, at)
    }
}

// The entry at an offset, to be stored with its corner's offset.
fn entry_at<M: Measure>(
    measure: &M,
    customers: u8,
    bytes: &[u8],
    at: usize,
) -> Result<Potential<usize>, LeafFault>
    requires { at + entry_size (M.Measure.meaning measure.now).words ≤ length bytes.now }
    ensures { result ≡ read_located (M.Measure.meaning measure.now) customers bytes.now at }
{
    let place = place_at(bytes, at, customers)?;
    let value = amount_at(bytes, at + 1, 1_000_000_000_000_000)?;
    let corner = at + 9;
    corner_at(measure, bytes, corner)?;
    Ok(Potential {
        place,
        value,
        corner,
    })
}

// The entries, as many as there is room for.
pub(crate) fn read_entries<M: Measure>(
    measure: &M,
    customers: u8,
    bytes: &[u8],
    room: &mut [Potential<usize>],
) -> Result<(), LeafFault>
    requires { entries_at customers + entry_size (M.Measure.meaning measure.now).words * length room.old ≤ length bytes.now }
    ensures { let μ = M.Measure.meaning measure.now in MatchResult result (λ _. read_each (read_located μ customers bytes.now) (entries_at customers) (entry_size μ.words) (length room.old) ≡ Ok room.new) (λ f. read_each (read_located μ customers bytes.now) (entries_at customers) (entry_size μ.words) (length room.old) ≡ Err f) }
{
    let at = 13 + 8 * customers as usize;
    let size = 9 + 8 * measure.words();
    read_each(room, at, size, |at| entry_at(measure, customers, bytes, at))
}
