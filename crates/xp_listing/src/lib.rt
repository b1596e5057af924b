//! The listing of all partitions' words: a text for who debugs a partition by its memory.
#![tactic(auto)]

mod area;
mod entries;
mod flags;
mod open;
mod text;

pub use text::listing;
