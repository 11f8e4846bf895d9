//! The network that answers from a case's tables.
ghost use Rattle.std.specs.Prelude.{◌+◌, ◌*◌, ◌≤◌, length};

use crate::cells::{Head, Place, Road};

/// Places from the depot on, and arcs row by row: the arc from i to j stands at i × (customers + 1) + j.
#[derive(Drop)]
pub struct TableNetwork<'a> {
    pub head: Head,
    pub places: &'a [Place],
    pub arcs: &'a [Option<Road>],
    ghost placed: { head.customers + 1 ≤ length places.now },
    ghost joined: { (head.customers + 1) * (head.customers + 1) ≤ length arcs.now },
}
