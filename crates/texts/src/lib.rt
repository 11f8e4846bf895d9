//! Reading a case and a plan from text, with the first fault of a text that is refused.
#![tactic(auto)]

mod arcs;
pub mod cases;
pub mod faults;
mod lines;
mod numbers;
pub mod plans;
mod reader;
mod tables;
#[cfg(test)]
mod tests;
