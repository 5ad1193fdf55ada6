//! Whatever the schedule, a run by cores holds and prints what the source's run says.
#![tactic(auto)]

mod events;
mod laws;

pub use events::{events_go_on, first_states_are_true, runs_of_parts};
pub use laws::{
    every_later_schedule, every_schedule, runs_are_counted, starts_are_told, worlds_are_true,
};
