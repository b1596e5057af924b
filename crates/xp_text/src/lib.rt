//! The words of a text: its lines, the words of a line with their columns, and the numbers and
//! payloads that words spell.
#![tactic(auto)]

pub mod lengths;
pub mod line;
pub mod numbers;
pub mod parts;
pub mod payloads;
