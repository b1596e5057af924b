//! One partner of a partition, whole: how the partition stands to it, and the ends of their
//! channels.
#![tactic(auto)]

pub mod copies;
mod ends;
pub mod laws;
pub mod page;
pub mod partner;
