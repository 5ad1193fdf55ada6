//! The text of a program with the split of its loop.

mod lets;

ghost use Rattle.std.specs.Prelude.{◌≡◌, ◌++◌, IfOk, OnOk, codes, length, slice_get};
ghost use Rattle.std.specs.Option.{option_copied};
ghost use Rattle.std.specs.String.{string_bytes};
ghost use Rattle.instrument.specs.Shown.{begin_block, give_block, ring_line, shown, shown_block, shown_dense, shown_loop, slot_line, slot_lines};

use crate::split::{Split, SplitLoop};
use carry_analysis::{Carry, Class};
use lets::{Line, combine_word, name_text, print_lets};
use std::alloc::Global;
use vert_base::Want;
use vert_tree::{Decl, Dense, SlotDecl, Stmt, print_block, print_declarations, print_program};

/// The text of a program, and behind it how its loop is split: a line for each let, one for the
/// carry, and the blocks with which a segment begins, runs and ends, and the tail.
pub fn print_split(alloc: Global, split: &Split) -> Result<String, Want>
    ensures { IfOk result (λ text. string_bytes text ≡ shown split.now.program.program) }
{
    let mut out = print_program(alloc, &split.program.program)?;
    print_dense(&mut out, split)?;
    Ok(out)
}

fn print_dense(out: &mut String, split: &Split) -> Result<(), Want>
    ensures { OnOk result (string_bytes out.new ≡ string_bytes out.old
        ++ shown_dense split.now.program.program.names.items
        split.now.program.program.slots.items split.now.program.program.dense) }
{
    let program = &split.program.program;
    match (&program.dense, &split.dense) {
        (Some(dense), Some(part)) => print_loop(out, &program.names, &program.slots, dense, part),
        _ => Ok(out.push_str("no dense\n")?),
    }
}

fn print_loop(
    out: &mut String,
    names: &[String],
    slots: &[SlotDecl],
    dense: &Dense,
    split: &SplitLoop,
) -> Result<(), Want>
    requires { length split.now.classes.locals.items ≡ length dense.now.lets.items }
    ensures { OnOk result (string_bytes out.new ≡ string_bytes out.old
        ++ shown_loop names.now slots.now dense.now split.now) }
{
    let classes = split.classes.locals.as_slice();
    print_lets(out, Line::Local, names, &dense.lets, classes)?;
    print_ring(out, &split.carry)?;
    print_begin(out, names, &dense.lets, classes)?;
    print_statements(out, "segment {\n", names, &dense.body)?;
    print_give(
        out,
        names,
        &dense.lets,
        classes,
        slots,
        split.emitted.as_slice(),
    )?;
    print_statements(out, "tail {\n", names, &dense.tail)
}

fn print_ring(out: &mut String, carry: &Option<Carry>) -> Result<(), Want>
    ensures { OnOk result (string_bytes out.new ≡ string_bytes out.old ++ ring_line carry.now) }
{
    match carry {
        Some(carry) => Ok(write!(out, "ring {}\n", carry.words)?),
        None => Ok(out.push_str("ring none\n")?),
    }
}

fn print_begin(
    out: &mut String,
    names: &[String],
    lets: &[Decl],
    classes: &[Class],
) -> Result<(), Want>
    requires { length classes.now ≡ length lets.now }
    ensures { OnOk result (string_bytes out.new ≡ string_bytes out.old
        ++ begin_block names.now lets.now classes.now) }
{
    out.push_str("begin {\n")?;
    print_declarations(out, names, "let ", lets)?;
    print_lets(out, Line::Receive, names, lets, classes)?;
    print_lets(out, Line::Reset, names, lets, classes)?;
    Ok(out.push_str("}\n")?)
}

// The lines of a block behind its keyword and brace.
fn print_statements(
    out: &mut String,
    opening: &str,
    names: &[String],
    body: &[Stmt],
) -> Result<(), Want>
    ensures { OnOk result (string_bytes out.new ≡ string_bytes out.old
        ++ shown_block opening.now names.now body.now) }
{
    out.push_str(opening)?;
    print_block(out, names, body)?;
    Ok(out.push_str("}\n")?)
}

fn print_give(
    out: &mut String,
    names: &[String],
    lets: &[Decl],
    classes: &[Class],
    slots: &[SlotDecl],
    emitted: &[u8],
) -> Result<(), Want>
    requires { length classes.now ≡ length lets.now }
    ensures { OnOk result (string_bytes out.new ≡ string_bytes out.old
        ++ give_block names.now lets.now classes.now slots.now emitted.now) }
{
    out.push_str("give {\n")?;
    print_lets(out, Line::Forward, names, lets, classes)?;
    print_lets(out, Line::Update, names, lets, classes)?;
    print_slots(out, names, slots, emitted)?;
    Ok(out.push_str("}\n")?)
}

fn print_slots(
    out: &mut String,
    names: &[String],
    slots: &[SlotDecl],
    emitted: &[u8],
) -> Result<(), Want>
    ensures { OnOk result (string_bytes out.new ≡ string_bytes out.old
        ++ slot_lines names.now slots.now emitted.now) }
{
    'lines: for place in emitted {
        print_slot(out, names, slot_at(slots, *place))?;
    }
    Ok(())
}

#[tactic(auto, using(std::proofs::lemmas::Option::gets))]
fn slot_at(slots: &[SlotDecl], place: u8) -> Option<&SlotDecl>
    ensures { option_copied result ≡ slice_get slots.now place }
{
    slots.get(usize::from(place))
}

// The line of a slot, if there is one.
fn print_slot(out: &mut String, names: &[String], slot: Option<&SlotDecl>) -> Result<(), Want>
    ensures { OnOk result (string_bytes out.new ≡ string_bytes out.old
        ++ slot_line names.now (option_copied slot.entry)) }
{
    match slot {
        Some(slot) => {
            out.push_str("update ")?;
            out.push_str(name_text(names, &slot.name))?;
            out.push_str(" ")?;
            out.push_str(combine_word(slot.op))?;
            Ok(out.push_str(";\n")?)
        }
        None => Ok(()),
    }
}
