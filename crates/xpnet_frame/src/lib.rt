//! The messages of the network channel, by which a frame goes to a partner: the frame itself, or
//! the buffer in which it stands. Their bytes, and exactly which bytes are a message.
#![tactic(auto)]

pub mod header;
pub mod message;

pub use message::{NetFault, NetMessage, decode, encode};
