//! Checking a leaf: its record, its rule, and its bound.
ghost use Rattle.std.specs.Prelude.{◌≡◌, ◌≤◌, true, length};
ghost use Rattle.leaf.specs.Answer.{leaf_answer};
ghost use Rattle.leaf.specs.Fields.{well_sized};
ghost use Rattle.leaf.specs.Judges.{Judges};
ghost use Rattle.leaf.specs.Record.{entry_count};

use crate::checker::LeafCheck;
use crate::faults::LeafFault;
use crate::fields::{amount_at, scale_at};
use crate::held::Held;
use crate::index::{Index, ends_of, sort_entries};
use crate::potentials::Potential;
use crate::records::{count_entries, read_duals, read_entries};
use measures::measure::Measure;
use routing::networks::Network;

// A well-sized record, with room for its duals and twice for its entries.
fn check_fields<'a, N: Network, M: Measure>(
    network: &'a N,
    measure: &'a M,
    bytes: &'a [u8],
    duals: &'a mut [i64],
    entries: &'a mut [Potential<usize>],
    room: &'a mut [Potential<usize>],
    cost: u32,
) -> Result<(), LeafFault>
    requires sized { well_sized (M.Measure.meaning measure.now).words (N.Network.meaning network.now).customers bytes.now ≡ true }
    requires duals_fit { length duals.old ≡ (N.Network.meaning network.now).customers }
    requires entries_fit { length entries.old ≡ entry_count (N.Network.meaning network.now).customers bytes.now }
    requires room_fits { length room.old ≡ length entries.old }
    ensures { result ≡ leaf_answer (M.Measure.meaning measure.now) (N.Network.meaning network.now) bytes.now cost }
{
    let scale = scale_at(bytes, 1)?;
    let price = amount_at(bytes, 3, 1_000_000_000_000_000)?;
    read_duals(bytes, duals)?;
    read_entries(measure, network.customers(), bytes, entries)?;
    room.copy_from_slice(entries);
    sort_entries(room);
    let ends = ends_of(room);
    let leaf = Held {
        bytes,
        scale,
        price,
        duals,
        entries,
    };
    let index = Index {
        sorted: room,
        ends: &ends,
    };
    let check = LeafCheck {
        network,
        measure,
        leaf,
        index,
    };
    check.check_rule(cost)
}

// A well-sized record of so many entries, for which there is room. The room is fixed, since nothing is taken from a heap.
fn check_sized<N: Network, M: Measure, const ROOM: usize>(
    network: &N,
    measure: &M,
    bytes: &[u8],
    count: u16,
    cost: u32,
) -> Result<(), LeafFault>
    requires sized { well_sized (M.Measure.meaning measure.now).words (N.Network.meaning network.now).customers bytes.now ≡ true }
    requires counted { count ≡ entry_count (N.Network.meaning network.now).customers bytes.now }
    requires enough { count ≤ ROOM }
    requires few { ROOM ≤ 65536 }
    ensures { result ≡ leaf_answer (M.Measure.meaning measure.now) (N.Network.meaning network.now) bytes.now cost }
{
    let customers = network.customers() as usize;
    let mut duals = [0; 60];
    let mut entries = [Potential::BLANK; ROOM];
    let mut room = [Potential::BLANK; ROOM];
    check_fields(
        network,
        measure,
        bytes,
        &mut duals[..customers],
        &mut entries[..count as usize],
        &mut room[..count as usize],
        cost,
    )
}

/// Grants a leaf whose rule holds for the cost of a plan, or says the first fault of its record or of the rule.
/// Most leaves have few entries, and room is cleared for each: so it comes in three sizes.
pub fn check_leaf<N: Network, M: Measure>(
    network: &N,
    measure: &M,
    record: &[u8],
    cost: u32,
) -> Result<(), LeafFault>
    ensures value { result ≡ leaf_answer (M.Measure.meaning measure.now) (N.Network.meaning network.now) «record».now cost }
    ensures judges { Judges (M.Measure.meaning measure.now) (N.Network.meaning network.now) «record».now cost result }
{
    let count = count_entries(measure.words(), network.customers(), record)?;
    if count <= 256 {
        check_sized::<N, M, 256>(network, measure, record, count, cost)
    } else if count <= 4096 {
        check_sized::<N, M, 4096>(network, measure, record, count, cost)
    } else {
        check_sized::<N, M, 65536>(network, measure, record, count, cost)
    }
}
