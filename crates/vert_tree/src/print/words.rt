ghost use Rattle.std.specs.Prelude.{◌≡◌};
ghost use Rattle.vert_tree.specs.Printed.{assign_text, builtin_text, combine_text, mode_text, operator_text, truth_text, type_text};

use crate::{AssignOp, BinOp, Builtin};
use vert_base::{Combine, Mode, ValueType};

/// Each word and mark with the space behind it.
pub(crate) fn truth_word(value: bool) -> &'static str
    ensures { result.now ≡ truth_text value }
{
    if value { "true " } else { "false " }
}

pub(crate) fn builtin_word(word: Builtin) -> &'static str
    ensures { result.now ≡ builtin_text word }
{
    match word {
        Builtin::Id => "id ",
        Builtin::Count => "n ",
        Builtin::Round => "round ",
        Builtin::InDeg => "indeg ",
        Builtin::OutDeg => "outdeg ",
        Builtin::Active => "active ",
        Builtin::Weight => "w ",
    }
}

pub(crate) fn operator_mark(op: BinOp) -> &'static str
    ensures { result.now ≡ operator_text op }
{
    match op {
        BinOp::Add => "+ ",
        BinOp::Sub => "- ",
        BinOp::Mul => "* ",
        BinOp::Div => "/ ",
        BinOp::Rem => "% ",
        BinOp::Eq => "== ",
        BinOp::Ne => "!= ",
        BinOp::Lt => "< ",
        BinOp::Le => "<= ",
        BinOp::Gt => "> ",
        BinOp::Ge => ">= ",
        BinOp::And => "&& ",
        BinOp::Or => "|| ",
    }
}

pub(crate) fn assign_mark(op: AssignOp) -> &'static str
    ensures { result.now ≡ assign_text op }
{
    match op {
        AssignOp::Set => "= ",
        AssignOp::Add => "+= ",
        AssignOp::Least => "min = ",
        AssignOp::Greatest => "max = ",
    }
}

pub(crate) fn type_word(kind: ValueType) -> &'static str
    ensures { result.now ≡ type_text kind }
{
    match kind {
        ValueType::Int => "int ",
        ValueType::Bool => "bool ",
    }
}

pub(crate) fn combine_word(op: Combine) -> &'static str
    ensures { result.now ≡ combine_text op }
{
    match op {
        Combine::Min => "min ",
        Combine::Max => "max ",
        Combine::Sum => "sum ",
        Combine::First => "first ",
    }
}

pub(crate) fn mode_word(mode: Mode) -> &'static str
    ensures { result.now ≡ mode_text mode }
{
    match mode {
        Mode::Auto => "auto ",
        Mode::Dense => "dense ",
        Mode::Sparse => "sparse ",
    }
}
