//! Images: what a run begins with at a round, as bytes with a key of what is run, and back.
#![tactic(auto)]

mod fault;
mod head;
mod judge;
mod keys;
mod laws;
mod read;
mod write;

pub use fault::ImageFault;
pub use keys::key;
pub use laws::{images_read_back, keys_tell};
pub use read::read_image;
pub use write::write_image;
