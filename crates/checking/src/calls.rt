//! The calls of a check and what they are answered.
use crate::faults::CheckFault;
use replay::vans::Priced;

/// A call: a listing to present, the record of a fork or of a leaf, or a question.
#[derive(Clone, Copy)]
pub enum Call<'a> {
    Present(&'a [u8]),
    Fork(&'a [u8]),
    Close(&'a [u8]),
    Ask,
}

/// How far the tree has come.
#[derive(Clone, Copy, Debug, PartialEq, Eq)]
pub enum Standing {
    // The tree is finished: no plan is cheaper than this cost, and one costs it.
    Proved { cost: u32 },
    // So many decisions are held.
    Open { decisions: usize },
}

#[derive(Clone, Copy, Debug, PartialEq, Eq)]
pub enum Grant {
    Presented(Priced),
    Forked,
    Closed,
    Stands(Standing),
}

pub type Answer = Result<Grant, CheckFault>;
