//! Networks of the vehicle routing problem with time windows.
#![tactic(auto)]

pub mod answers;
pub mod cells;
pub mod denials;
pub mod networks;
pub mod tables;
