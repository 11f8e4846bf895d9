//! A leaf's entries in order, for look-ups.
ghost use Rattle.std.specs.Prelude.{◌≡◌, ◌-◌, ◌≤◌, take, drop, slice_index};
ghost use Rattle.std.specs.List.Sorted.{IsPermutation};
ghost use Rattle.leaf.specs.Stored.{Rising, Ends};

use crate::drives::PLACES;
use crate::potentials::Potential;

/// Entries by place and then by value; and for each place, how many of them stand at it or at a lower one:
/// a look-up reads these ends, where a bisection would search.
#[derive(Clone, Copy)]
pub struct Index<'a> {
    pub sorted: &'a [Potential<usize>],
    pub ends: &'a [usize; PLACES],
    ghost rising: { Rising sorted.now },
    ghost ended: { Ends sorted.now ends.now },
}

impl Index<'_> {
    // The entries at a place, by value.
    pub(crate) fn at(&self, place: u8) -> &[Potential<usize>]
        requires customer { 1 ≤ place }
        requires few { place ≤ 60 }
        ensures { let start = slice_index self.now.ends.now (place - 1) in result.now ≡ take (slice_index self.now.ends.now place - start) (drop start self.now.sorted.now) }
    {
        &self.sorted[self.ends[place as usize - 1]..self.ends[place as usize]]
    }
}

// Puts entries in order, by place and then by value.
pub(crate) fn sort_entries(entries: &mut [Potential<usize>])
    ensures shuffled { IsPermutation entries.old entries.new }
    ensures rising { Rising entries.new }
{
    entries.sort_unstable();
}

// For each place, how many of the sorted stand at it or at a lower one.
pub(crate) fn ends_of(sorted: &[Potential<usize>]) -> [usize; PLACES]
    requires { Rising sorted.now }
    ensures { Ends sorted.now result }
{
    let mut ends = [0; PLACES];
    for (place, end) in ends.iter_mut().enumerate() {
        *end = sorted.partition_point(|entry| entry.place as usize <= place);
    }
    ends
}
