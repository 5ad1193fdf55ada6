//! Tests of code and machines. Cases are lines of text, which one loop reads.
#![tactic(auto)]

#[cfg(test)]
mod codes;
#[cfg(test)]
mod engine;
#[cfg(test)]
mod freedom;
#[cfg(test)]
mod programs;
#[cfg(test)]
mod runs;
#[cfg(test)]
mod segments;
#[cfg(test)]
mod splits;
#[cfg(test)]
mod steps;
#[cfg(test)]
mod values;
#[cfg(test)]
mod views;
#[cfg(test)]
mod words;
