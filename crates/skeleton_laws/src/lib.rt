//! The laws of the order of events in a run, whatever the messages say.
#![tactic(auto)]

mod laws;

pub use laws::{event_bounds, event_choices, event_counts, event_order};
