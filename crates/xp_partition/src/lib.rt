//! A whole partition: what it keeps of itself and of its partners, and its visits.
#![tactic(auto)]

pub mod clock;
pub mod copies;
pub mod keeping;
pub mod laws;
pub mod life;
pub mod partition;
pub mod partners;
pub mod progress;
