//! Tests of schedules, of runs over links as text, of the lines of events and of images. Cases are lines
//! of text, which one loop reads.
#![tactic(auto)]

#[cfg(test)]
mod events;
#[cfg(test)]
mod images;
#[cfg(test)]
mod links;
#[cfg(test)]
mod schedules;
