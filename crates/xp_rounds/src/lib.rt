//! In which order a partition visits its own affairs and its partners, and how it spends its turns
//! there.
#![tactic(auto)]

pub mod rounds;
