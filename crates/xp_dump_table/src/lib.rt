//! What each word of a dump may be, in both layouts that dumps have: a table, apart from the reader
//! that goes by it.
#![tactic(auto)]

pub mod layout;
pub mod table;

pub use layout::{Field, Layout};
pub use table::Part;
