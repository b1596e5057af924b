//! What a partition does next on its rounds: the errands of each place, and the step that each of
//! them asks for.
#![tactic(auto)]

pub mod errand;
pub mod laws;
