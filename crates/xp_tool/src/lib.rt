//! The program: words and bytes in, bytes out.
#![tactic(auto)]

pub mod command;
mod ending;
mod input;
pub mod plain;
mod product;
pub mod status;
pub mod tool;
pub mod words;

pub use xp_outside::sink::{MemorySink, Sink, SinkFault, WholeSink};
pub use xp_outside::source::{Failed, MemorySource, Source, WholeSource};
pub use xp_outside::standard::{StdSink, StdSource};
pub use xp_scenario::text::parse;
pub use xp_threads::gate::{Gate, OpenGate};
