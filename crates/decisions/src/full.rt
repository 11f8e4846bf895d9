//! Why a decision is not taken up.

/// 64 decisions are held.
#[derive(Clone, Copy, Debug, PartialEq, Eq)]
pub struct Full;
