// How many words the bodies of a program's messages have, and which of them are `Bool`s.
ghost use Rattle.std.specs.Prelude.{◌≡◌, ◌<◌, ◌≤◌, ◌+◌, ◌*◌, ◌^◌, ◌∷◌, ◌++◌, if◌then◌else◌, List, length, slice_index_or};
ghost use Rattle.vert_base.specs.declared.value.ValueType.{ValueType};
ghost use Rattle.body_shape.specs.Shapes.{bool_bits};
ghost use Rattle.symple_face.specs.Shapes.{carried_in, reduced_in, types_at, types_of, words_in};
ghost use Rattle.vert_tree.specs.Places.{lets_in, sends_in};
ghost use Rattle.symple_face.specs.Plans.{blocks_of, loop_carry};
ghost use Rattle.vert_base.specs.declared.value.Ruling.TheVariants as ruling;
ghost use Rattle.circulant_plan.specs.Skeleton.{may_rule};

use crate::plans::carry;
use body_shape::BodyShape;
use instrument::Split;
use vert_base::ValueType;
use vert_tree::Decl;

fn is_bool(kind: ValueType) -> bool
    ensures { (types : List ValueType) → bool_bits (kind ∷ types) ≡ (if result then 1 else 0) + 2
        * bool_bits types }
{
    kind == ValueType::Bool
}

// The bits of the types of declarations, before the bits of at most one type more.
pub(crate) fn bits_before(decls: &[Decl], last: u32) -> u32
    requires few { length decls.now ≤ 16 }
    requires last { last ≤ 1 }
    ensures value { (types : List ValueType) → last ≡ bool_bits types →
        result ≡ bool_bits (types_of decls.now ++ types) }
    ensures small { result < 2 ^ (length decls.now + 1) }
    ensures alone { last ≡ 0 → result < 2 ^ length decls.now }
{
    match decls {
        [] => last,
        [first, others @ ..] => {
            let bits = 2 * bits_before(others, last);
            if is_bool(first.kind) { bits + 1 } else { bits }
        }
    }
}

// The bits of the types of the lets at some places.
fn bits_at(lets: &[Decl], places: &[u8]) -> u32
    requires few { length places.now ≤ 8 }
    ensures value { result ≡ bool_bits (types_at (types_of lets.now) places.now) }
    ensures small { result < 2 ^ length places.now }
{
    match places {
        [] => 0,
        [first, others @ ..] => {
            let bits = 2 * bits_at(lets, others);
            if is_bool(type_at(lets, *first)) {
                bits + 1
            } else {
                bits
            }
        }
    }
}

fn type_at(lets: &[Decl], place: u8) -> ValueType
    ensures { result ≡ slice_index_or (types_of lets.now) place ValueType.Int }
{
    match lets.get(usize::from(place)) {
        Some(decl) => decl.kind,
        None => ValueType::Int,
    }
}

// The bits of the carried lets of the program's loop.
pub(crate) fn carried_bits(split: &Split) -> u8
    ensures { result ≡ bool_bits (types_at (types_of (lets_in split.now.program.program.dense))
        (carried_in split.now.dense)) }
{
    match (&split.program.program.dense, &split.dense) {
        (Some(dense), Some(split_loop)) => bits_at(
            &dense.lets,
            split_loop.carried.as_slice(),
        ) as u8,
        (None, Some(split_loop)) => bits_at(&[], split_loop.carried.as_slice()) as u8,
        (_, None) => 0,
    }
}

pub(crate) fn reduced_count(split: &Split) -> u8
    ensures { result ≡ length (reduced_in split.now.dense) }
{
    match &split.dense {
        Some(split_loop) => split_loop.reduced.len() as u8,
        None => 0,
    }
}

// What a program sends in a sparse round.
pub(crate) fn sends(split: &Split) -> &[Decl]
    ensures value { result.now ≡ sends_in split.now.program.program.sparse }
    ensures few { length result.now ≤ 8 }
{
    match &split.program.program.sparse {
        Some(sparse) => &sparse.sends,
        None => &[],
    }
}

pub(crate) fn fields(split: &Split) -> &[Decl]
    ensures value { result.now ≡ split.now.program.program.fields.items }
    ensures few { length result.now ≤ 16 }
{
    &split.program.program.fields
}

pub(crate) fn slot_count(split: &Split) -> u8
    ensures { result ≡ length split.now.program.program.slots.items }
{
    split.program.program.slots.len() as u8
}

pub(crate) fn total_count(split: &Split) -> u8
    ensures { result ≡ length split.now.program.program.totals.items }
{
    split.program.program.totals.len() as u8
}

pub(crate) fn carry_words(split: &Split) -> u8
    ensures { result ≡ words_in (loop_carry split.now.dense) }
{
    match carry(split) {
        Some(carry) => carry.words,
        None => 0,
    }
}

// What a verdict for a round may rule, with the words of its totals.
pub(crate) fn verdict_form(split: &Split, round: u32) -> BodyShape
    ensures { result ≡ BodyShape.Verdict (may_rule (blocks_of split.now) round ruling.Dense)
        (may_rule (blocks_of split.now) round ruling.Sparse)
        (length split.now.program.program.totals.items) }
{
    let program = &split.program.program;
    let takes_place = u64::from(round) <= program.limit;
    BodyShape::Verdict {
        dense: program.dense.is_some() && takes_place,
        sparse: program.sparse.is_some() && takes_place,
        totals: total_count(split),
    }
}
