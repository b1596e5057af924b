//! Why nothing that is due to a partition that follows the plan of its turns waits longer than a
//! window.
#![tactic(auto)]

pub mod duties;
