//! A case and a plan as they were read.
use arrayvec::ArrayVec;
use routing::cells::{Head, Place, Road};

/// The case's places and arcs stand in the fronts of tables that are long enough for any.
#[derive(Drop)]
pub struct Texts {
    pub(crate) head: Head,
    pub(crate) places: [Place; 61],
    pub(crate) arcs: [Option<Road>; 3721],
    pub(crate) listing: ArrayVec<u8, 120>,
}
