ghost use Rattle.std.specs.Prelude.{◌≡◌, ◌++◌, OnOk, length};
ghost use Rattle.std.specs.String.{string_bytes};
ghost use Rattle.vert_tree.specs.Printed.{combine_text};
ghost use Rattle.vert_tree.specs.Views.{text_of};
ghost use Rattle.instrument.specs.Shown.{carried_line, class_text, let_line, let_lines, reduced_line};

use carry_analysis::Class;
use vert_base::{Combine, Want};
use vert_tree::{Decl, Ident};

/// What is told of a let: its class, that its word is received or that it is reset as a segment
/// begins, that its word is handed on or that its value is combined as the segment ends.
#[derive(Clone, Copy)]
pub(crate) enum Line {
    Local,
    Receive,
    Reset,
    Forward,
    Update,
}

/// Appends a line for each let of which there is anything to tell.
pub(crate) fn print_lets(
    out: &mut String,
    line: Line,
    names: &[String],
    lets: &[Decl],
    classes: &[Class],
) -> Result<(), Want>
    requires { length classes.now ≡ length lets.now }
    ensures { OnOk result (string_bytes out.new ≡ string_bytes out.old
        ++ let_lines line names.now lets.now classes.now) }
{
    'lines: for (i, declaration) in lets.iter().enumerate() {
        print_let(out, line, name_text(names, &declaration.name), classes[i])?;
    }
    Ok(())
}

fn print_let(out: &mut String, line: Line, name: &str, class: Class) -> Result<(), Want>
    ensures { OnOk result (string_bytes out.new ≡ string_bytes out.old
        ++ let_line line name.now class) }
{
    match line {
        Line::Local => {
            out.push_str("local ")?;
            out.push_str(name)?;
            out.push_str(" ")?;
            Ok(out.push_str(class_words(class))?)
        }
        Line::Receive => print_carried(out, "receive ", name, class),
        Line::Reset => print_reduced(out, "reset ", name, class),
        Line::Forward => print_carried(out, "forward ", name, class),
        Line::Update => print_reduced(out, "update ", name, class),
    }
}

fn print_carried(out: &mut String, keyword: &str, name: &str, class: Class) -> Result<(), Want>
    ensures { OnOk result (string_bytes out.new ≡ string_bytes out.old
        ++ carried_line keyword.now name.now class) }
{
    match class {
        Class::Carried => {
            out.push_str(keyword)?;
            out.push_str(name)?;
            Ok(out.push_str(" ;\n")?)
        }
        Class::Constant | Class::Reduced(_) => Ok(()),
    }
}

fn print_reduced(out: &mut String, keyword: &str, name: &str, class: Class) -> Result<(), Want>
    ensures { OnOk result (string_bytes out.new ≡ string_bytes out.old
        ++ reduced_line keyword.now name.now class) }
{
    match class {
        Class::Reduced(op) => {
            out.push_str(keyword)?;
            out.push_str(name)?;
            out.push_str(" ")?;
            out.push_str(combine_word(op))?;
            Ok(out.push_str(";\n")?)
        }
        Class::Constant | Class::Carried => Ok(()),
    }
}

// The class with the line end behind it.
fn class_words(class: Class) -> &'static str
    ensures { result.now ≡ class_text class }
{
    match class {
        Class::Constant => "constant\n",
        Class::Reduced(Combine::Sum) => "reduced sum\n",
        Class::Reduced(Combine::Min) => "reduced min\n",
        Class::Reduced(Combine::Max) => "reduced max\n",
        Class::Reduced(Combine::First) => "reduced first\n",
        Class::Carried => "carried\n",
    }
}

/// The operator with the space behind it.
pub(crate) fn combine_word(op: Combine) -> &'static str
    ensures { result.now ≡ combine_text op }
{
    match op {
        Combine::Min => "min ",
        Combine::Max => "max ",
        Combine::Sum => "sum ",
        Combine::First => "first ",
    }
}

/// The text of a name, which is empty where its place isn't among the names.
pub(crate) fn name_text<'a>(names: &'a [String], name: &Ident) -> &'a str
    ensures { result.now ≡ text_of names.now name.now.name }
{
    match names.get(name.name as usize) {
        Some(text) => text.as_str(),
        None => "",
    }
}
