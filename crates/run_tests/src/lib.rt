//! Tests of machines and the messages between them: every order of events comes to the plain run of its program, as a
//! schedule, over links and from images too. Cases are lines of text, which one loop reads.
#![tactic(auto)]

#[cfg(test)]
mod cases;
#[cfg(test)]
mod links;
#[cfg(test)]
mod machines;
#[cfg(test)]
mod orders;
#[cfg(test)]
mod parts;
#[cfg(test)]
mod refusals;
#[cfg(test)]
mod resumes;
#[cfg(test)]
mod runs;
#[cfg(test)]
mod schedules;
