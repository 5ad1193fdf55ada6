ghost use Rattle.std.specs.Prelude.{◌≡◌, ◌≤◌, ◌+◌, ◌*◌, ◌++◌, ℕ, length, vec_capacity, vec_len, IsOk, OnErr, OnOk};
ghost use Rattle.body_shape.specs.Tally.{counted_read, number_bytes, tally_body};
ghost use Rattle.body_shape.specs.Verdict.{judged_read, ruling_byte, ruling_with, verdict_body};

use crate::words::{lay, number_at};
use vert_base::{Ruling, Want};

/// What a machine counted, besides its totals.
#[derive(Clone, Copy, Debug, PartialEq, Eq)]
pub struct Counts {
    pub active: u64,
    pub edges: u64,
    pub reads: u64,
}

// Writes a number where there is room for it.
#[tactic(auto, unfolding(crate::specs::Tally::number_bytes))]
fn lay_number(bytes: &mut Vec<u8>, number: u64) -> Result<(), Want>
    requires { vec_len bytes.old + 8 ≤ vec_capacity bytes.old }
    ensures ok { IsOk result }
    ensures items { bytes.new.items ≡ bytes.old.items ++ number_bytes number }
    ensures len { vec_len bytes.new ≡ vec_len bytes.old + 8 }
    ensures capacity { vec_capacity bytes.old ≤ vec_capacity bytes.new }
{
    bytes.extend_from_slice(&number.to_le_bytes())?;
    Ok(())
}

/// Writes a tally at the end of bytes.
pub fn put_tally(bytes: &mut Vec<u8>, counts: &Counts, totals: &[i64]) -> Result<(), Want>
    requires { length totals.now ≤ 16 }
    ensures put { OnOk result (bytes.new.items ≡ bytes.old.items
        ++ tally_body (record {
          active = counts.now.active;
          edges = counts.now.edges;
          reads = counts.now.reads;
          totals = totals.now;
        })) }
    ensures want { OnErr result (bytes.new.items ≡ bytes.old.items) }

    // It succeeds where there is room, and gives none up.
    ensures room { vec_len bytes.old + (24 + 8 * length totals.now) ≤ vec_capacity bytes.old
        → IsOk result }
    ensures capacity { vec_capacity bytes.old ≤ vec_capacity bytes.new }
{
    bytes.reserve(24 + 8 * totals.len())?;
    lay_number(bytes, counts.active)?;
    lay_number(bytes, counts.edges)?;
    lay_number(bytes, counts.reads)?;
    lay(bytes, totals)
}

/// The counts of a tally, zeros where it is missing.
pub fn counts_of(tally: &[u8]) -> Counts
    ensures active { (totals : ℕ) → result.active ≡ (counted_read totals tally.now).active }
    ensures edges { (totals : ℕ) → result.edges ≡ (counted_read totals tally.now).edges }
    ensures reads { (totals : ℕ) → result.reads ≡ (counted_read totals tally.now).reads }
{
    Counts {
        active: number_at(tally, 0),
        edges: number_at(tally, 8),
        reads: number_at(tally, 16),
    }
}

fn ruling_byte(ruling: Ruling) -> u8
    ensures { result ≡ ruling_byte ruling }
{
    match ruling {
        Ruling::Stop => 0,
        Ruling::Dense => 1,
        Ruling::Sparse => 2,
    }
}

fn ruling_with(byte: u8) -> Ruling
    ensures { result ≡ ruling_with byte }
{
    match byte {
        0 => Ruling::Stop,
        1 => Ruling::Dense,
        _ => Ruling::Sparse,
    }
}

/// Writes a verdict at the end of bytes.
pub fn put_verdict(bytes: &mut Vec<u8>, ruling: Ruling, totals: &[i64]) -> Result<(), Want>
    requires { length totals.now ≤ 16 }
    ensures put { OnOk result (bytes.new.items
        ≡ bytes.old.items ++ verdict_body (record { ruling = ruling; totals = totals.now })) }
    ensures want { OnErr result (bytes.new.items ≡ bytes.old.items) }

    // It succeeds where there is room, and gives none up.
    ensures room { vec_len bytes.old + (1 + 8 * length totals.now) ≤ vec_capacity bytes.old
        → IsOk result }
    ensures capacity { vec_capacity bytes.old ≤ vec_capacity bytes.new }
{
    bytes.reserve(1 + 8 * totals.len())?;
    bytes.extend_from_slice(&[ruling_byte(ruling)])?;
    lay(bytes, totals)
}

/// The ruling of a verdict, `Stop` where it is missing. Its totals are the words from byte 1 on.
pub fn ruling_of(verdict: &[u8]) -> Ruling
    ensures { (totals : ℕ) → result ≡ (judged_read totals verdict.now).ruling }
{
    match verdict {
        [] => Ruling::Stop,
        [byte, ..] => ruling_with(*byte),
    }
}
