//! Tests of the crates that read: tokens, grammar, types, printing, whole programs and command lines.
#![tactic(auto)]

#[cfg(test)]
mod accepted;
#[cfg(test)]
mod command_lines;
#[cfg(test)]
mod controls;
#[cfg(test)]
mod depths;
#[cfg(test)]
mod grammar;
#[cfg(test)]
mod programs;
#[cfg(test)]
mod refused;
#[cfg(test)]
mod tokens;
