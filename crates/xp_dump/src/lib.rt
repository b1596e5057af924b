//! Dumps of all partitions' words: their bytes, and the reader that takes them in pieces.
#![tactic(auto)]

pub mod fault;
mod parts;
pub mod reader;
mod stage;
mod tape;
pub mod writer;

pub use fault::DumpFault;
pub use reader::Reader;
pub use writer::dump;
pub use xp_listing::listing;
