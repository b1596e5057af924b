//! The lines of scripts: the form of each command, and its reader.
#![tactic(auto)]

pub mod command;
pub mod verb;
