//! A van on its way through a listing, and what the listing comes to.

/// Where the van stands, when it is ready to leave, what it carries; and the cost and the routes so far.
#[derive(Clone, Copy)]
pub struct Van {
    pub at: u8,
    pub ready: u32,
    pub load: u32,
    pub cost: u32,
    pub routes: usize,
}

/// The cost of a plan and the number of its routes.
#[derive(Clone, Copy, Debug, PartialEq, Eq)]
pub struct Priced {
    pub cost: u32,
    pub routes: usize,
}
