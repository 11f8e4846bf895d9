//! From the bytes of the files to the line that is printed.
#![tactic(auto)]

pub mod case_and_plan;
pub mod faults;
pub mod held;
pub mod judging;
pub mod lines;
pub mod pricing;
pub mod reading;
