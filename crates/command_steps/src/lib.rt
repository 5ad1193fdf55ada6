//! What a command does with the outside, step by step: loads, notes and statuses, and the commands that
//! run no machine.
#![tactic(auto)]

mod failure;
mod files;
mod freedom;
mod impossible;
mod notes;
mod output;
mod plan;
mod read;
mod show;
mod status;

pub use failure::Failure;
pub use files::{load_file, numbered_name, store_file, try_file};
pub use freedom::tell_freedom;
pub use impossible::Impossible;
pub use notes::write_note;
pub use output::flush;
pub use plan::show_plan;
pub use read::{Sources, load_both, load_graph, load_program, load_program_text, load_sources};
pub use show::show_program;
pub use status::Status;
