//! Heartbeats: the own one, and how a partner's is watched.
#![tactic(auto)]

pub mod beat;
pub mod check;
pub mod watch;
