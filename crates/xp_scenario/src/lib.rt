//! The text of a scenario: the scenario that it spells, or its first fault.
#![tactic(auto)]

pub mod draft;
pub mod fault;
pub mod head;
mod limits;
mod line;
pub mod plan;
pub mod poke;
pub mod scripts;
pub mod text;
