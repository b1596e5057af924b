//! The records of an end's connections, with room for what is noted next.
#![tactic(auto)]

pub mod record;
pub mod records;
