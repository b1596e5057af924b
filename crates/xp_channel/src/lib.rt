//! One end of a channel, from contact to contact: its handshake, its sides, its commands, and the
//! records of its connections.
#![tactic(auto)]

pub mod commands;
pub mod end;

pub use xp_connections::record::TURN_ROOM;
