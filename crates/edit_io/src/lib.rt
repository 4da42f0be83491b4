//! Where bytes come from and where they go: sources and sinks in memory, whose answers are proved
//! to the byte, and the two that stand over a real reader and writer.
#![tactic(auto)]

mod memory;
mod real;
mod streams;
mod whole;

pub use memory::{MemorySink, MemorySource, SliceSource, SureSink};
pub use real::{ReadSource, WriteSink};
pub use streams::{Failed, Sink, SinkFault, Source};
pub use whole::{ReadAllFault, read_all, write_all};
