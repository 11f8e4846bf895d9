//! The check of a branch-and-price tree over any network.
#![tactic(auto)]

pub mod calls;
pub mod checks;
pub mod closing;
pub mod faults;
pub mod keeping;
pub mod logs;
mod progress;
pub mod running;
