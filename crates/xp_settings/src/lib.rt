//! The settings of a scenario's text: the form of each setting line, its reader, and what the lines
//! so far have set.
#![tactic(auto)]

pub mod setting;
pub mod settings;
pub mod word;
