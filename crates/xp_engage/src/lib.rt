//! How a partition stands to one partner: the own memory for it, the engagement bit, the contact.
#![tactic(auto)]

pub mod area;
pub mod partner;
