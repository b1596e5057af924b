//! The forms of a line: which words may stand in it, one after the other, and the first that may
//! not.
#![tactic(auto)]

pub mod fault;
pub mod fields;
