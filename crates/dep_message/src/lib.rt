//! Messages as bytes: a header with the name, and a body whose form the name gives. Reads and writes them, and tells
//! which bodies fit a form.
#![tactic(auto)]

mod coding;
mod fault;
mod fitting;
mod header;
mod laws;
mod rows;
mod sends;
mod updates;

pub use coding::{decode, encode, is_proper};
pub use fault::MessageFault;
pub use fitting::fits;
pub use header::{HEADER, Header};
pub use laws::{bounded_bodies, one_spelling};
