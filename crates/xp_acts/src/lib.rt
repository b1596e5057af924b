//! What a partition does beside its steps: it begins the commands of its script, answers them, and
//! gives notices.
#![tactic(auto)]

pub mod answering;
pub mod beginning;
mod ends;
pub mod laws;
pub mod noticing;
mod wanting;
