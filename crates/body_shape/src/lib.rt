//! The forms of the bodies of messages, what bodies of each kind say as plain data, and which bodies fit
//! a form; and the writers of bodies, and readers in place that take no memory.
#![tactic(auto)]

mod laws;
mod rows;
mod sends;
mod sents;
mod shape;
mod totals;
mod words;

pub use laws::{
    missing_bodies, push_reads_back, refresh_reads_back, spelled_bytes, tally_reads_back,
    update_reads_back, verdict_reads_back,
};
pub use rows::{put_row, read_row};
pub use sends::{is_sender, put_no_sends, put_send, read_sends};
pub use sents::{behind_sent, operand_at, put_sent, value_at};
pub use shape::BodyShape;
pub use totals::{Counts, counts_of, put_tally, put_verdict, ruling_of};
pub use words::{behind, number_at, put_words, read_words, word_at};
