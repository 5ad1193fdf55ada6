//! SympleGraph's commands: each line of words, performed over files, an input and two outputs.
#![tactic(auto)]

mod counts;
mod files;
mod following;
mod images;
mod pieces;
mod recording;
mod resumes;
mod schedules;
mod shown;
mod streams;
mod top;

pub use files::FileShelf;
pub use streams::{InSource, OutSink};
pub use top::symple;
