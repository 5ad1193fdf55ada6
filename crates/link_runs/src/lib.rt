//! Runs over links that lose and repeat: their events are drawn and kept, or follow a text of form 3, and the
//! lines that are asked for and the table are put.
#![tactic(auto)]

mod following;
mod playing;
mod recording;

pub use following::follow_links;
pub use recording::record_lossy;
