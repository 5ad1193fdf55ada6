//! A program with how its dense loop is split over machines: what a segment of the loop begins with,
//! and what it hands on.
#![tactic(auto)]

mod laws;
mod print;
mod segment;
mod split;

pub use laws::segments_are_the_loop;
pub use print::print_split;
pub use split::{Split, SplitLoop, body_emits, split_of};
