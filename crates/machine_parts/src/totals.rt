// The totals of a machine's own rows.
ghost use Rattle.std.specs.Prelude.{IsTrue, ◌≡◌, ◌≤◌, ◌<◌, ◌+◌, ◌^◌, length, map, pos, slice_index_or};
ghost use Rattle.std.specs.List.{All};
ghost use Rattle.vert_tree.specs.Places.{expr_placed};
ghost use Rattle.slot_merge.specs.Combine.{combined_of, neutral};
ghost use Rattle.vert_eval.specs.Values.{CanDraw, counts_of, value_of};
ghost use Rattle.machine_parts.specs.Counting.{AreTotalsPlaced, own_total, values_added};

use crate::environment::{enter, read_row_of};
use crate::rows::Rows;
use arrayvec::ArrayVec;
use symple_face::Degree;
use vert_base::{Combine, VertexId};
use vert_eval::{Env, eval};
use vert_tree::{Expr, TotalDecl};

/// The totals over own vertices, which begin at `start`. It goes through the vertices once, and
/// enters each; where there is no total it goes to none.
pub fn own_totals(
    totals: &[TotalDecl],
    rows: &Rows,
    degrees: &[Degree],
    start: u32,
    env: &mut Env,
) -> ArrayVec<i64, 4>
    requires few { length totals.now ≤ 4 }
    requires each { length degrees.now ≡ length rows.now.rows }
    requires ids { start + length rows.now.rows ≤ 2 ^ 24 }
    requires round { env.old.round ≤ 10000 }
    requires names { AreTotalsPlaced rows.now.width env.old totals.now }
    ensures { result.items ≡ map (own_total rows.now.rows degrees.now start env.old) totals.now }
{
    if totals.is_empty() {
        return ArrayVec::new();
    }
    let mut words = first_words(totals);
    'places: for place in 0..rows.len() {
        read_row_of(rows, place, env);
        enter(env, VertexId(start + place as u32), &degrees[place], 0);
        words = with_values(totals, env, words.as_slice());
    }
    words
}

// What totals begin with.
fn first_words(totals: &[TotalDecl]) -> ArrayVec<i64, 4>
    requires { length totals.now ≤ 4 }
    ensures { result.items ≡ map (λ t. neutral t.op) totals.now }
{
    let mut words = ArrayVec::new();
    for total in totals {
        words.push(first_word(total.op));
    }
    words
}

fn first_word(op: Combine) -> i64
    ensures { result ≡ neutral op }
{
    match op {
        Combine::Min => i64::MAX,
        Combine::Max => i64::MIN,
        Combine::Sum | Combine::First => 0,
    }
}

// Totals with their values at one vertex more.
fn with_values(totals: &[TotalDecl], env: &Env, held: &[i64]) -> ArrayVec<i64, 4>
    requires few { length totals.now ≤ 4 }
    requires each { length held.now ≡ length totals.now }
    requires names { All (λ t. IsTrue (expr_placed (counts_of env.now) t.value)) totals.now }
    requires draws { CanDraw env.now }
    ensures { result.items ≡ values_added env.now totals.now held.now }
{
    let mut words = ArrayVec::new();
    for (i, total) in totals.iter().enumerate() {
        words.push(with_value(total.op, held, i, &total.value, env));
    }
    words
}

// The word of a total at a place, with its value at one vertex more.
fn with_value(op: Combine, held: &[i64], place: usize, value: &Expr, env: &Env) -> i64
    requires place { place < length held.now }
    requires names { IsTrue (expr_placed (counts_of env.now) value.now) }
    requires draws { CanDraw env.now }
    ensures { result
        ≡ combined_of op (slice_index_or held.now place (pos 0)) (value_of value.now env.now) }
{
    let word = held[place];
    combined(op, word, eval(value, env))
}

fn combined(op: Combine, held: i64, word: i64) -> i64
    ensures { result ≡ combined_of op held word }
{
    match op {
        Combine::Min => held.min(word),
        Combine::Max => held.max(word),
        Combine::Sum => held.wrapping_add(word),
        Combine::First => held,
    }
}
