//! The verdict on a case, a plan and a tree, from the bytes of the three files.
#![tactic(auto)]

pub mod faults;
pub mod judging;
pub mod nodes;
