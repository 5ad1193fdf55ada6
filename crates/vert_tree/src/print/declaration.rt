ghost use Rattle.std.specs.Prelude.{◌≡◌, ◌++◌, OnOk, flat_map, map};
ghost use Rattle.std.specs.String.{string_bytes};
ghost use Rattle.vert_tree.specs.Printed.{printed_declaration, printed_slot, printed_total};
ghost use Rattle.vert_tree.specs.Views.{view_declaration, view_slot, view_total};

use super::expression::{print_line, print_name};
use super::words::{combine_word, type_word};
use crate::{Decl, SlotDecl, TotalDecl};
use std::alloc::AllocError;

/// Appends the lines of fields, lets or sends. `keyword` has the space behind it.
pub(crate) fn print_declarations(
    out: &mut String,
    names: &[String],
    keyword: &str,
    declarations: &[Decl],
) -> Result<(), AllocError>
    ensures { OnOk result (string_bytes out.new ≡ string_bytes out.old
        ++ flat_map (printed_declaration keyword.now)
        (map (view_declaration names.now) declarations.now)) }
{
    'lines: for declaration in declarations {
        print_declaration(out, names, keyword, declaration)?;
    }
    Ok(())
}

fn print_declaration(
    out: &mut String,
    names: &[String],
    keyword: &str,
    declaration: &Decl,
) -> Result<(), AllocError>
    ensures { OnOk result (string_bytes out.new ≡ string_bytes out.old
        ++ printed_declaration keyword.now (view_declaration names.now declaration.now)) }
{
    print_name(out, names, keyword, &declaration.name, " : ")?;
    out.push_str(type_word(declaration.kind))?;
    print_line(out, names, "= ", &declaration.value)
}

/// Appends the lines of slots.
pub(crate) fn print_slots(
    out: &mut String,
    names: &[String],
    slots: &[SlotDecl],
) -> Result<(), AllocError>
    ensures { OnOk result (string_bytes out.new ≡ string_bytes out.old
        ++ flat_map printed_slot (map (view_slot names.now) slots.now)) }
{
    'lines: for slot in slots {
        print_slot(out, names, slot)?;
    }
    Ok(())
}

fn print_slot(out: &mut String, names: &[String], slot: &SlotDecl) -> Result<(), AllocError>
    ensures { OnOk result (string_bytes out.new ≡ string_bytes out.old
        ++ printed_slot (view_slot names.now slot.now)) }
{
    print_name(out, names, "slot ", &slot.name, " : ")?;
    out.push_str(combine_word(slot.op))?;
    out.push_str(";\n")
}

/// Appends the lines of totals.
pub(crate) fn print_totals(
    out: &mut String,
    names: &[String],
    totals: &[TotalDecl],
) -> Result<(), AllocError>
    ensures { OnOk result (string_bytes out.new ≡ string_bytes out.old
        ++ flat_map printed_total (map (view_total names.now) totals.now)) }
{
    'lines: for total in totals {
        print_total(out, names, total)?;
    }
    Ok(())
}

fn print_total(out: &mut String, names: &[String], total: &TotalDecl) -> Result<(), AllocError>
    ensures { OnOk result (string_bytes out.new ≡ string_bytes out.old
        ++ printed_total (view_total names.now total.now)) }
{
    print_name(out, names, "total ", &total.name, " : ")?;
    out.push_str(combine_word(total.op))?;
    print_line(out, names, "= ", &total.value)
}
