//! The first fault of declarations and blocks.
#![tactic(auto, using(crate::proofs::Rules::expression_laws))]

ghost use Rattle.std.specs.Prelude.{◌≡◌, Some, IsTrue, length, map, option_map};
ghost use Rattle.vert_tree.specs.Places.{option_all};
ghost use Rattle.vert_tree.specs.Views.{view, view_declaration, view_dense, view_program, view_sparse, view_total};
ghost use Rattle.vert_types.specs.Findings.{first_from};
ghost use Rattle.vert_types.specs.Parsed.{decls_known, dense_known, expr_known, program_known, sparse_known, totals_known};
ghost use Rattle.vert_types.specs.Scopes.{IsScope, dictionary_in, names_in, view_place};
ghost use Rattle.vert_types.specs.Typing.{body_faults, declaration_faults, dense_faults, let_faults, sparse_faults, stop_faults, total_faults};

use crate::expression::check_as;
use crate::findings::Findings;
use crate::place::{
    at_field, at_loop, at_sparse, at_start, at_stop, at_test, at_total, at_update, with_lets,
};
use crate::scope::{Place, Rights, Scope};
use crate::statement::check_body;
use vert_base::ValueType;
use vert_tree::{Decl, Dense, Expr, Sparse, TotalDecl};

/// What the statements of a loop body may do.
const LOOP_RIGHTS: Rights = Rights {
    locals: true,
    fields: false,
    active: false,
    emits: true,
    breaks: true,
};

/// What the statements of a tail may do.
const TAIL_RIGHTS: Rights = Rights {
    locals: true,
    fields: false,
    active: false,
    emits: true,
    breaks: false,
};

/// What the statements of a sparse body may do.
const SPARSE_RIGHTS: Rights = Rights {
    locals: false,
    fields: false,
    active: false,
    emits: true,
    breaks: false,
};

/// Fields or sends.
pub(crate) fn check_decls(decls: &[Decl], scope: &Scope, place: &Place, found: &mut Findings)
    requires scope { IsScope scope.now }
    requires known { IsTrue (decls_known (length (names_in scope.now)) decls.now) }
    ensures { found.new.first ≡ first_from found.old.first
        (declaration_faults (dictionary_in scope.now) (view_place place.now)
        (map (view_declaration (names_in scope.now)) decls.now)) }
{
    for decl in decls {
        check_as(decl.kind, &decl.value, scope, place, found);
    }
}

/// Totals.
pub(crate) fn check_totals(totals: &[TotalDecl], scope: &Scope, place: &Place, found: &mut Findings)
    requires scope { IsScope scope.now }
    requires known { IsTrue (totals_known (length (names_in scope.now)) totals.now) }
    ensures { found.new.first ≡ first_from found.old.first
        (total_faults (dictionary_in scope.now) (view_place place.now)
        (map (view_total (names_in scope.now)) totals.now)) }
{
    for total in totals {
        check_as(ValueType::Int, &total.value, scope, place, found);
    }
}

/// Lets, of which each reads those before it.
fn check_lets(lets: &[Decl], scope: &Scope, place: &Place, found: &mut Findings)
    requires scope { IsScope scope.now }
    requires known { IsTrue (decls_known (length (names_in scope.now)) lets.now) }
    ensures { found.new.first ≡ first_from found.old.first
        (let_faults (dictionary_in scope.now) (view_place place.now) 0
        (map (view_declaration (names_in scope.now)) lets.now)) }
{
    for (i, decl) in lets.iter().enumerate() {
        check_as(decl.kind, &decl.value, scope, &with_lets(place, i), found);
    }
}

fn check_dense_block(block: &Dense, scope: &Scope, found: &mut Findings)
    requires scope { IsScope scope.now }
    requires known { IsTrue (dense_known (length (names_in scope.now)) block.now) }
    ensures { found.new.first ≡ first_from found.old.first
        (dense_faults (dictionary_in scope.now) (view_program scope.now.program.now)
        (Some (view_dense (names_in scope.now) block.now))) }
{
    let test = at_test(scope.program);
    let lets = block.lets.len();
    check_as(ValueType::Bool, &block.when_test, scope, &test, found);
    check_lets(&block.lets, scope, &test, found);
    check_body(
        &block.body,
        &LOOP_RIGHTS,
        scope,
        &at_loop(lets, scope.program),
        found,
    );
    check_body(
        &block.tail,
        &TAIL_RIGHTS,
        scope,
        &with_lets(&test, lets),
        found,
    );
}

/// The dense block, if there is one.
pub(crate) fn check_dense(dense: &Option<Dense>, scope: &Scope, found: &mut Findings)
    requires scope { IsScope scope.now }
    requires known { IsTrue (option_all (dense_known (length (names_in scope.now))) dense.now) }
    ensures { found.new.first ≡ first_from found.old.first
        (dense_faults (dictionary_in scope.now) (view_program scope.now.program.now)
        (option_map (view_dense (names_in scope.now)) dense.now)) }
{
    match dense {
        Some(block) => check_dense_block(block, scope, found),
        None => {}
    }
}

fn check_sparse_block(block: &Sparse, scope: &Scope, found: &mut Findings)
    requires scope { IsScope scope.now }
    requires known { IsTrue (sparse_known (length (names_in scope.now)) block.now) }
    ensures { found.new.first ≡ first_from found.old.first
        (sparse_faults (dictionary_in scope.now) (view_program scope.now.program.now)
        (Some (view_sparse (names_in scope.now) block.now))) }
{
    let test = at_test(scope.program);
    check_as(ValueType::Bool, &block.when_test, scope, &test, found);
    check_decls(&block.sends, scope, &test, found);
    check_body(
        &block.body,
        &SPARSE_RIGHTS,
        scope,
        &at_sparse(block.sends.len(), scope.program),
        found,
    );
}

/// The sparse block, if there is one.
pub(crate) fn check_sparse(sparse: &Option<Sparse>, scope: &Scope, found: &mut Findings)
    requires scope { IsScope scope.now }
    requires known { IsTrue (option_all (sparse_known (length (names_in scope.now))) sparse.now) }
    ensures { found.new.first ≡ first_from found.old.first
        (sparse_faults (dictionary_in scope.now) (view_program scope.now.program.now)
        (option_map (view_sparse (names_in scope.now)) sparse.now)) }
{
    match sparse {
        Some(block) => check_sparse_block(block, scope, found),
        None => {}
    }
}

/// The stop test, if there is one.
pub(crate) fn check_stop(stop: &Option<Expr>, scope: &Scope, found: &mut Findings)
    requires scope { IsScope scope.now }
    requires known { IsTrue (option_all (expr_known (length (names_in scope.now))) stop.now) }
    ensures { found.new.first ≡ first_from found.old.first
        (stop_faults (dictionary_in scope.now) (view_program scope.now.program.now)
        (option_map (view (names_in scope.now)) stop.now)) }
{
    match stop {
        Some(test) => {
            let place = at_stop(scope.program);
            check_as(ValueType::Bool, test, scope, &place, found);
        }
        None => {}
    }
}

/// What the statements of update may do.
const UPDATE_RIGHTS: Rights = Rights {
    locals: false,
    fields: true,
    active: true,
    emits: false,
    breaks: false,
};

/// All expressions and blocks of a program.
pub(crate) fn check_bodies(scope: &Scope, found: &mut Findings)
    requires scope { IsScope scope.now }
    requires known { IsTrue (program_known (length (names_in scope.now)) scope.now.program.now) }
    ensures { found.new.first ≡ first_from found.old.first
        (body_faults (dictionary_in scope.now) (view_program scope.now.program.now)) }
{
    let program = scope.program;
    check_decls(&program.fields, scope, &at_field(), found);
    check_totals(&program.totals, scope, &at_total(program), found);
    check_as(
        ValueType::Bool,
        &program.start,
        scope,
        &at_start(program),
        found,
    );
    check_dense(&program.dense, scope, found);
    check_sparse(&program.sparse, scope, found);
    check_body(
        &program.update,
        &UPDATE_RIGHTS,
        scope,
        &at_update(program),
        found,
    );
    check_stop(&program.stop, scope, found);
}
