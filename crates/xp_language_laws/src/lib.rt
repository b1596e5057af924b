//! Laws of the language of scenarios.
#![tactic(auto)]

pub mod pokes;
pub mod texts;
pub mod totals;
