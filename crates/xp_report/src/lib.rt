//! The report: how each partition stands, what its commands were answered, and what came of its
//! connections; and the summary of them.
#![tactic(auto)]

pub mod answers;
pub mod device;
pub mod head;
pub mod links;
pub mod log;
pub mod order;
pub mod summary;
pub mod text;
