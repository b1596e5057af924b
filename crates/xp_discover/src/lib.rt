//! How a partition boots, and what a look at a partner's page shows.
#![tactic(auto)]

pub mod boot;
pub mod look;
