//! Tests of part files and of one machine over a stream. Cases are lines of text, which one loop reads.
#![tactic(auto)]

#[cfg(test)]
mod files;
#[cfg(test)]
mod streams;
