//! A scenario as text.
#![tactic(auto)]

mod command;
mod payload;
mod script;
mod setting;
pub mod text;
