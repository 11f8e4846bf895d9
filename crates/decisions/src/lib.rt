//! Branching decisions on arcs, and the network that keeps them over another.
#![tactic(auto)]

pub mod decision;
pub mod decisions;
pub mod full;
pub mod layers;
#[cfg(test)]
mod tests;
