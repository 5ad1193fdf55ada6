ghost use Rattle.std.specs.Prelude.{◌≡◌, IfOk, IfErr, is_some};
ghost use Rattle.vert_tree.specs.Limits.{mode_stands};
ghost use Rattle.vert_tree.specs.Views.{view_program};
ghost use Rattle.vert_types.specs.Filled.{IsTyping};
ghost use Rattle.vert_types.specs.Findings.{first_from};
ghost use Rattle.vert_types.specs.Parsed.{IsParsed};
ghost use Rattle.vert_types.specs.Typing.{IsFirst, header_faults, mode_faults};

use crate::blocks::check_bodies;
use crate::declare::meanings_of;
use crate::fault::TypeFault;
use crate::fill::fill_program;
use crate::findings::{BLOCKLESS, Findings, HALF_BLOCKED, OVERLONG};
use crate::scope::Scope;
use std::alloc::Global;
use vert_base::limits::ROUNDS;
use vert_base::{Mode, Span};
use vert_tree::{Program, Typed};

fn mode_stands(mode: Mode, dense: bool, sparse: bool) -> bool
    ensures { result ≡ mode_stands mode dense sparse }
{
    match mode {
        Mode::Auto => dense && sparse,
        Mode::Dense => dense,
        Mode::Sparse => sparse,
    }
}

/// The blocks of a program, by the word after `mode`.
fn check_mode(mode: Mode, dense: bool, sparse: bool, span: Span, found: &mut Findings)
    ensures { found.new.first ≡ first_from found.old.first (mode_faults mode dense sparse span) }
{
    if dense || sparse {
        found.unless(mode_stands(mode, dense, sparse), HALF_BLOCKED, span);
    } else {
        found.note(BLOCKLESS, span);
    }
}

fn check_header(program: &Program, found: &mut Findings)
    ensures { found.new.first ≡ first_from found.old.first
        (header_faults (view_program program.now)) }
{
    check_mode(
        program.mode,
        program.dense.is_some(),
        program.sparse.is_some(),
        program.mode_at,
        found,
    );
    found.unless(
        program.limit <= u64::from(ROUNDS),
        OVERLONG,
        program.limit_at,
    );
}

/// Types a program: says of each of its names what it stands for.
pub fn check(alloc: Global, program: Program) -> Result<Typed, TypeFault>
    requires { IsParsed program }
    ensures accepted { IfOk result (λ typed. IsTyping program typed.program) }
    ensures refused { IfErr result (λ fault. IsFirst (view_program program) fault) }
{
    let mut found = Findings { first: None };
    check_header(&program, &mut found);
    let meanings = meanings_of(alloc, &program, &mut found)?;
    let scope = Scope {
        program: &program,
        meanings: &meanings,
    };
    check_bodies(&scope, &mut found);
    if let Some(first) = found.first {
        return Err(TypeFault::Fault {
            code: first.code,
            span: first.span,
        });
    }
    let mut typed = program;
    fill_program(&mut typed, &meanings);
    Ok(Typed { program: typed })
}
