ghost use Rattle.std.specs.Prelude.{◌≡◌, ◌≤◌, ◌<◌, ◌+◌, ◌*◌, ◌^◌, ◌++◌, ◌∷◌, [], ◌↔◌, IsTrue, suc, if◌then◌else◌, List, length};
ghost use Rattle.std.specs.List.{list_all};
ghost use Rattle.dep_layout.specs.Judgement.{rows_in};
ghost use Rattle.dep_layout.specs.Spelling.{are_typed};
ghost use Rattle.vert_base.specs.declared.value.ValueType.{ValueType};
ghost use Rattle.vert_base.specs.declared.value.ValueType.TheVariants as kind;
ghost use Rattle.body_shape.specs.Shapes.{bool_bits};
ghost use Rattle.symple_face.specs.Plans.{blocks_of};
ghost use Rattle.symple_face.specs.Shapes.{types_of};
ghost use Rattle.check_point.specs.Judgement.{IsOwn, IsWhole, IsWholeOf, goes_on, is_mode, row_bits};
ghost use Rattle.check_point.specs.Images.{key_in};

use crate::head::{Head, head_of};
use body_shape::behind;
use dep_layout::are_typed;
use instrument::Split;
use sha2::{Digest, Sha256};
use vert_base::ValueType;
use vert_tree::Decl;

/// Whether bytes are as long as an image of so many fields, vertices and totals, with its mark in
/// front and its digest at the end.
pub(crate) fn is_whole(bytes: &[u8], fields: usize, vertices: usize, totals: usize) -> bool
    requires fields { fields ≤ 16 }
    requires vertices { vertices < 2 ^ 32 }
    requires totals { totals ≤ 4 }
    ensures { IsTrue result ↔ IsWhole fields vertices totals bytes.now }
{
    let front = 61 + 8 * (fields + 1) * vertices + 8 * totals;
    if bytes.len() != front + 32 {
        return false;
    }
    let (told, digest) = bytes.split_at(front);
    told.starts_with(b"SGI1") && digest == Sha256::digest(told).as_slice()
}

/// Whether an image has this key, and its numbers are those with which a run goes on.
pub(crate) fn is_own(bytes: &[u8], key: &[u8; 32], split: &Split, vertices: u32) -> bool
    requires { IsWholeOf split.now vertices bytes.now }
    ensures { IsTrue result ↔ IsOwn split.now vertices key.now bytes.now }
{
    if key_told(bytes) != key.as_slice() || !goes_on(&head_of(bytes), split, vertices) {
        return false;
    }
    rows_typed(behind(bytes, 61), split, vertices)
}

fn key_told(bytes: &[u8]) -> &[u8]
    requires { 36 ≤ length bytes.now }
    ensures { result.now ≡ key_in bytes.now }
{
    &bytes[4..36]
}

// Whether in each row the Bools are ones.
fn rows_typed(rows: &[u8], split: &Split, vertices: u32) -> bool
    requires { 8 * suc (length split.now.program.program.fields.items) * vertices
        ≤ length rows.now }
    ensures { result ≡ list_all (are_typed (row_bits split.now))
        (rows_in (suc (length split.now.program.program.fields.items)) vertices rows.now) }
{
    let fields = split.program.program.fields.as_slice();
    are_typed(rows, vertices as usize, fields.len() + 1, row_bits(fields))
}

fn goes_on(head: &Head, split: &Split, vertices: u32) -> bool
    ensures { result ≡ goes_on (blocks_of split.now) vertices head.now }
{
    head.count == vertices
        && 1 <= head.ended
        && u64::from(head.ended) < split.program.program.limit
        && is_mode(split, head.ruling)
        && 1 <= head.active
        && head.active <= 1 << 32
        && head.edges <= 1 << 32
}

fn is_mode(split: &Split, ruling: u8) -> bool
    ensures { result ≡ is_mode (blocks_of split.now) ruling }
{
    match ruling {
        1 => split.program.program.dense.is_some(),
        2 => split.program.program.sparse.is_some(),
        _ => false,
    }
}

// Which words of a row are Bools: bit i is set where field i is one, and the last bit for the flag.
fn row_bits(fields: &[Decl]) -> u32
    requires few { length fields.now ≤ 16 }
    ensures value { result ≡ bool_bits (types_of fields.now ++ kind.Bool ∷ []) }
    ensures small { result < 2 ^ (length fields.now + 1) }
{
    match fields {
        [] => 1,
        [first, others @ ..] => {
            let bits = 2 * row_bits(others);
            if is_bool(first.kind) { bits + 1 } else { bits }
        }
    }
}

fn is_bool(kind: ValueType) -> bool
    ensures { (types : List ValueType) → bool_bits (kind ∷ types) ≡ (if result then 1 else 0) + 2
        * bool_bits types }
{
    kind == ValueType::Bool
}
