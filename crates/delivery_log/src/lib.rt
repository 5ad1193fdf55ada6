//! Schedules as text: the machines of a run and the events played, in their order.
#![tactic(auto)]

mod chooser;
mod fault;
mod form;
mod laws;
mod line;
mod read;
mod recorder;
mod spelling;

pub use chooser::{Chooser, plain};
pub use fault::{RecordFault, ScheduleFault};
pub use form::{Form, Schedule};
pub use laws::{chosen_runs_are_complete, schedules_read_back};
pub use line::line_at;
pub use read::{form_of, lines_of, read_schedule, round_after};
pub use recorder::Recorder;
pub use spelling::push_behind;
