//! A machine's part, with the program that runs on it, as a file, and back; and that machine alone, over a source of
//! the messages that it takes and a sink of those that it sends.
#![tactic(auto)]

mod counts;
mod fault;
mod known;
mod laws;
mod numbers;
mod order;
mod part_file;
mod part_numbers;
mod reading;
mod sections;
mod sending;
mod serving;
mod spelling;

pub use fault::{PartFault, ServeFault};
pub use laws::{forms_are_short, prompt_runs_are_served, steps_are_enough};
pub use part_file::read_part;
pub use serving::serve;
pub use spelling::write_part;
