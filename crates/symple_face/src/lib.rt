//! What the product asks of the outside, a shelf of files, a source and a sink of bytes, with its
//! counts of faults, and shelves, sources and sinks in memory that keep the same laws; what a machine
//! holds of a graph, and the forms of its messages.
#![tactic(auto)]

mod action;
mod ahead;
mod degree;
mod feed;
mod laws;
mod list_feed;
mod part;
mod plans;
mod report;
mod shape;
mod site;
mod start;
mod words;

pub use action::Action;
pub use ahead::Ahead;
pub use body_shape::BodyShape;
pub use degree::Degree;
pub use feed::Feed;
pub use laws::planned_by_table;
pub use list_feed::ListFeed;
pub use outside::{
    DripSink, FirmShelf, FirmSink, LoadFault, MemShelf, MemSink, MemSource, Shelf, Sink, SinkFault,
    Source, SourceFault, StoreFault,
};
pub use part::Part;
pub use report::Report;
pub use site::{Restart, Site};
pub use start::Start;
