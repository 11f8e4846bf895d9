//! A listing of routes, priced on any network.
#![tactic(auto)]

pub mod drive;
pub mod faults;
pub mod form;
pub mod once;
pub mod pricing;
pub mod vans;
