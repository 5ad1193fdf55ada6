//! What the product asks of the outside, a shelf of files, a source and a sink of bytes, with its
//! counts of faults, and shelves, sources and sinks in memory that keep the same laws.
#![tactic(auto)]

mod calls;
mod files;
mod mem_source;
mod pieces;
mod room;
mod shelf;
mod shelves;
mod sink;
mod sinks;
mod source;

pub use mem_source::MemSource;
pub use shelf::{LoadFault, Shelf, StoreFault};
pub use shelves::{FirmShelf, MemShelf};
pub use sink::{Sink, SinkFault};
pub use sinks::{DripSink, FirmSink, MemSink};
pub use source::{Source, SourceFault};
