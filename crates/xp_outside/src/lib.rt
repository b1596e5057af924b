//! Where bytes come from and go to.
//!
//! A [`source::Source`] gives bytes and a [`sink::Sink`] takes them, in pieces of their own choice.
//! Both may fail, and count how often they did. A [`taker::Taker`] takes an input as it comes, and
//! keeps of it what it needs. What a program does with them is proved over any source, sink and
//! taker: those in memory here, and standard input and output.
#![tactic(auto)]

pub mod sink;
pub mod source;
pub mod standard;
pub mod taker;
