//! The circulant plan: which machine works on which chunk in which step, and which messages each
//! action needs and sends.
#![tactic(auto)]

mod gifts;
mod laws;
mod names;
mod needs;
mod plan;
mod spot;
mod table;

pub use laws::{actions, ring_order};
pub use plan::{half, order};
pub use spot::{Ring, Spot};
pub use table::{gives, need};
