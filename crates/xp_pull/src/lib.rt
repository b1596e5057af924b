//! The receiving side of a channel.
#![tactic(auto)]

mod cache;
mod copied;
pub mod receiver;
pub mod side;

pub use xp_base::answer::TakeAnswer;
