//! The machines of a run: they are made of the parts of a graph, play the events that someone chooses, and
//! put the lines that are asked for, and the table.
#![tactic(auto)]

mod followed;
mod machines;
mod rounds;
mod table;

pub use followed::{put_end, why_of};
pub use machines::{parts_from, play_event, play_out, started, write_log, write_round_if};
pub use rounds::ends_round;
pub use table::{put_table, vertices, write_line};
