//! A completion potential: an entry of a leaf, at a place and a corner of the measure.

/// From the place on, at any state that the corner is at most, what is left costs at least the value.
/// The order is by place, then by value.
#[derive(Clone, Copy)]
#[derive_where(PartialEq, Eq, PartialOrd, Ord)]
pub struct Potential<S> {
    pub place: u8,
    pub value: i64,
    #[derive_where(skip)]
    pub corner: S,
}

impl Potential<usize> {
    // An entry to fill a table with.
    pub(crate) const BLANK: Potential<usize> = Potential {
        place: 0,
        value: 0,
        corner: 0,
    };
}
