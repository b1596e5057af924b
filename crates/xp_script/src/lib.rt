//! A scenario as plain data: its settings, scripts and schedule, which scenarios are lawful, what
//! each partition is told of one, the words that the partitions open with, and the log of a
//! partition's commands.
#![tactic(auto)]

pub mod command;
pub mod count;
pub mod limits;
pub mod log;
pub mod made;
pub mod opening;
pub mod part;
pub mod payload;
pub mod scenario;
pub mod schedule;
pub mod script;
pub mod setting;
pub mod totals;
