//! Which programs give the same rows in whatever order the neighbours of a vertex are read.
#![tactic(auto)]

mod answer;
mod emits;
mod forms;
mod freedom;
mod laws;
mod reads;

pub use answer::free;
pub use freedom::Freedom;
pub use laws::order_free_programs;
