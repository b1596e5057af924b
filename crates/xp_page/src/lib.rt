//! The images of a partition's structures: their words as bytes, the lowest byte first, and exactly
//! which words each may hold.
#![tactic(auto)]

pub mod area;
pub mod entry;
pub mod grammar;
pub mod image;
pub mod page;
mod reading;

pub use area::{ArgsImage, CountersImage, RecordImage};
pub use entry::EntryImage;
pub use grammar::{PageCause, PageFault};
pub use image::{At, Image};
pub use page::{PageImage, VarsImage};
