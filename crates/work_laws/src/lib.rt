//! The work of a core is lawful: what it is, whatever bodies a machine takes, it keeps to the order of events, and
//! all that it holds and sends fits its form.
#![tactic(auto)]

mod laws;

pub use laws::core_is_lawful;
