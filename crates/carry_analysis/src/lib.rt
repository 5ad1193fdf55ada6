//! What a dense loop hands on from one segment to the next: the class of each let, and the carry.
#![tactic(auto)]

mod carry;
mod classes;
mod expression;
mod seen;
mod statement;

pub use carry::{Carry, carry_of};
pub use classes::{Class, Classes, classes_of};
