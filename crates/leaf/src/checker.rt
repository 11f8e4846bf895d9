//! A leaf to be judged, with the network and the measure that it is judged by.
ghost use Rattle.std.specs.Prelude.{◌≡◌, length};
ghost use Rattle.std.specs.List.{All};
ghost use Rattle.std.specs.List.Sorted.{IsPermutation};
ghost use Rattle.leaf.specs.Stored.{InPlace, Legible};

use crate::held::Held;
use crate::index::Index;
use measures::measure::Measure;
use routing::networks::Network;

#[derive(Drop)]
pub struct LeafCheck<'a, 'i, N: Network, M: Measure> {
    pub network: &'a N,
    pub measure: &'a M,
    pub leaf: Held<'a>,
    // The leaf's entries once more: faults go by the record's order, and look-ups by this one.
    pub index: Index<'i>,
    ghost indexed: { ∥ IsPermutation leaf.entries.now index.sorted.now ∥₁ },
    ghost legible: { All (Legible (M.Measure.meaning measure.now) leaf.bytes.now) leaf.entries.now },
    ghost in_place: { InPlace (N.Network.meaning network.now).customers (M.Measure.meaning measure.now).words leaf.entries.now },
    ghost all_duals: { length leaf.duals.now ≡ (N.Network.meaning network.now).customers },
}
