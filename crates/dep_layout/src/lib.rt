//! The bodies that carry the ring state: for each vertex of a half its mark, and for each started one the lets that it
//! carries.
#![tactic(auto)]

mod fault;
mod judging;
mod laws;
mod macros;
mod marks;
mod packing;
mod reading;
mod state;
mod words;

pub use fault::DepFault;
pub use judging::fits_ring;
pub use laws::one_spelling;
pub use packing::pack;
pub use reading::unpack;
pub use state::{DepState, Mark, Words};
pub use words::are_typed;
