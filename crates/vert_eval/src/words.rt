ghost use Rattle.std.specs.Prelude.{◌≡◌, neg_ℤ};
ghost use Rattle.vert_eval.specs.Words.{word_of, is_set, wrapped, quotient, remainder, binary, assigned};

use vert_tree::{AssignOp, BinOp};

/// The word of a truth value.
#[inline]
pub fn word(b: bool) -> i64
    ensures { result ≡ word_of b }
{
    i64::from(b)
}

/// Whether the word counts as true.
#[inline]
pub fn truth(x: i64) -> bool
    ensures { result ≡ is_set x }
{
    x != 0
}

/// What is left of `-x` in 64 bits.
#[inline]
pub fn negated(x: i64) -> i64
    ensures { result ≡ wrapped (neg_ℤ x) }
{
    x.wrapping_neg()
}

/// What the operator gives for two words.
#[inline]
pub fn apply(op: BinOp, x: i64, y: i64) -> i64
    ensures { result ≡ binary op x y }
{
    match op {
        BinOp::Add => x.wrapping_add(y),
        BinOp::Sub => x.wrapping_sub(y),
        BinOp::Mul => x.wrapping_mul(y),
        BinOp::Div => divided(x, y),
        BinOp::Rem => left_over(x, y),
        BinOp::Eq => word(x == y),
        BinOp::Ne => word(x != y),
        BinOp::Lt => word(x < y),
        BinOp::Le => word(x <= y),
        BinOp::Gt => word(x > y),
        BinOp::Ge => word(x >= y),
        BinOp::And => word(truth(x) && truth(y)),
        BinOp::Or => word(truth(x) || truth(y)),
    }
}

/// What an assignment of `y` leaves in a place that held `x`.
#[inline]
pub fn assign(op: AssignOp, x: i64, y: i64) -> i64
    ensures { result ≡ assigned op x y }
{
    match op {
        AssignOp::Set => y,
        AssignOp::Add => x.wrapping_add(y),
        AssignOp::Least => x.min(y),
        AssignOp::Greatest => x.max(y),
    }
}

fn divided(x: i64, y: i64) -> i64
    ensures { result ≡ quotient x y }
{
    if y == 0 { 0 } else { x.wrapping_div(y) }
}

fn left_over(x: i64, y: i64) -> i64
    ensures { result ≡ remainder x y }
{
    if y == 0 { 0 } else { x.wrapping_rem(y) }
}
