//! Scenarios that are made by a number.
#![tactic(auto)]

pub mod generator;
