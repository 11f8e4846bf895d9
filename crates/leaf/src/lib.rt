//! The leaf of a branch-and-price tree: its record, its rule, and the bound that it gives.
#![tactic(auto)]

pub mod arcs;
pub mod check;
mod checker;
pub mod drives;
pub mod faults;
pub mod fields;
pub mod held;
pub mod index;
pub mod look;
pub mod potentials;
pub mod reach;
pub mod records;
pub mod rules;
