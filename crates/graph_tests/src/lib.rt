//! Tests of graphs, of their parts and of messages. Cases are lines of text, which one loop reads.
#![tactic(auto)]

#[cfg(test)]
mod bodies;
#[cfg(test)]
mod buffers;
#[cfg(test)]
mod bytes;
#[cfg(test)]
mod doubles;
#[cfg(test)]
mod draws;
#[cfg(test)]
mod edges;
#[cfg(test)]
mod messages;
#[cfg(test)]
mod names;
#[cfg(test)]
mod parts;
#[cfg(test)]
mod plans;
#[cfg(test)]
mod tables;
#[cfg(test)]
mod writing;
