//! Runs over links that lose and repeat: the machines of a run and its links, one event at a time, and as text.
#![tactic(auto)]

mod choosing;
mod event;
mod fault;
mod laws;
mod line;
mod link_chooser;
mod links;
mod looks;
mod pile;
mod piles;
mod playing;
mod read;
mod recorder;
mod sending;
mod spelling;
mod wire;

pub use event::{LinkEvent, LinkSchedule};
pub use fault::{LinkFault, LinkRecordFault, LinkTextFault};
pub use laws::{drawn_links_are_possible, links_are_in_order, links_have_one_text};
pub use link_chooser::LinkChooser;
pub use links::Links;
pub use read::read_links;
pub use recorder::LinkRecorder;
