//! Laws of what the records of every history say, of each connection that ever was.
#![tactic(auto)]

pub mod records;
