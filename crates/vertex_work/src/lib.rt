//! What a machine does at one own vertex, by code: its first row, the members that its loop runs
//! over, what is sent of it and to it, and the end of a round there. What stays as it is over a run
//! stands here too.
#![tactic(auto)]

mod ending;
mod first;
mod ground;
mod lists;
mod own;
mod partials;
mod push;
mod quiet;
mod receivers;
mod scratch;
mod tail;
mod updates;
mod vertex;
mod visit;
mod words;

pub use ending::{Ending, end_vertex};
pub use first::{clear_rows, fill_rows};
pub use ground::Ground;
pub use lists::list_at;
pub use own::work_own;
pub use partials::add_sent;
pub use push::work_told;
pub use quiet::is_quiet;
pub use receivers::Receivers;
pub use scratch::{Scratch, new_scratch};
pub use updates::add_update;
pub use vertex::{LoopCode, OwnVertices};
pub use visit::{Visit, new_visit, scan_vertex};
pub use words::copy_words;
