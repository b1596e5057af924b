//! The handshake by which both ends open and close a channel.
#![tactic(auto)]

pub mod handshake;
