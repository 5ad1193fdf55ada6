//! Tests of the commands, and of the real files and streams that the program hands to them. Cases are
//! lines of text, which one loop reads.
#![tactic(auto)]

#[cfg(test)]
mod commands;
#[cfg(test)]
mod demos;
#[cfg(test)]
mod documents;
#[cfg(test)]
mod links;
#[cfg(test)]
mod real;
#[cfg(test)]
mod rows;
#[cfg(test)]
mod shows;
#[cfg(test)]
mod texts;
