//! The texts of the output, put piece by piece into a sink.
#![tactic(auto)]

mod digits;
mod event;
mod header;
mod put;
mod reads;
mod round;
mod row;

pub use event::{write_event, write_name};
pub use header::write_header;
pub use put::{put_all, put_pieces};
pub use reads::{write_read_head, write_reads};
pub use round::write_round;
pub use row::write_row;
