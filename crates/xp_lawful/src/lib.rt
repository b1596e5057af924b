//! Which scenarios are lawful, and which of them the rules of today can run: tests for those that
//! are made in code. What `parse` gives is lawful, and needs no test.
#![tactic(auto)]

pub mod built;
pub mod lawful;
