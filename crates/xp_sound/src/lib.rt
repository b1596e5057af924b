//! What a partition knows is always sound: its permitted turns keep it so, whatever it loads.
#![tactic(auto)]

pub mod laws;
