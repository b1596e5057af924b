//! The words of all partitions, as each partition's port sees them: in plain memory, or shared by
//! threads.
//!
//! Both memories meet one contract, that of `Memory`: a port's history grows by the step made and
//! its answer. When a memory is closed, one legal history of such steps leads from the words that
//! it was opened with to the words that it leaves.
#![tactic(auto)]

pub mod memory;
pub mod part_item;
pub mod plain;
pub mod rule;
pub mod shared;
