//! The places of a program, with what may be read there.
#![tactic(auto, using(crate::proofs::Rules::place_laws))]

ghost use Rattle.std.specs.Prelude.{◌≡◌, length};
ghost use Rattle.vert_tree.specs.Views.{view_program};
ghost use Rattle.vert_types.specs.Scopes.{view_place};
ghost use Rattle.vert_types.specs.Typing.{at_field, at_loop, at_sparse, at_start, at_stop, at_test, at_total, at_update, with_lets};

use crate::scope::{Place, Words};
use vert_tree::Program;

/// `id n round indeg outdeg draw`.
const IN_FIELDS: Words = Words {
    own: true,
    active: false,
    weight: false,
    others: false,
    slots: false,
};

/// These and `active`.
const IN_TESTS: Words = Words {
    own: true,
    active: true,
    weight: false,
    others: false,
    slots: false,
};

/// These, `w` and `u.`.
const IN_LOOP: Words = Words {
    own: true,
    active: true,
    weight: true,
    others: true,
    slots: false,
};

/// As a test, and `w`.
const IN_SPARSE: Words = Words {
    own: true,
    active: true,
    weight: true,
    others: false,
    slots: false,
};

/// As a test, and `.got`, `.value` of slots.
const IN_UPDATE: Words = Words {
    own: true,
    active: true,
    weight: false,
    others: false,
    slots: true,
};

/// `n` and `round`.
const IN_STOP: Words = Words {
    own: false,
    active: false,
    weight: false,
    others: false,
    slots: false,
};

/// A field's expression.
pub(crate) fn at_field() -> Place
    ensures { view_place result ≡ at_field }
{
    Place {
        words: IN_FIELDS,
        fields: 0,
        locals: 0,
        sends: 0,
        slots: 0,
        totals: 0,
    }
}

/// Start.
pub(crate) fn at_start(program: &Program) -> Place
    ensures { view_place result ≡ at_start (view_program program.now) }
{
    Place {
        words: IN_FIELDS,
        fields: program.fields.len(),
        locals: 0,
        sends: 0,
        slots: 0,
        totals: 0,
    }
}

/// A total's expression.
pub(crate) fn at_total(program: &Program) -> Place
    ensures { view_place result ≡ at_total (view_program program.now) }
{
    Place {
        words: IN_TESTS,
        fields: program.fields.len(),
        locals: 0,
        sends: 0,
        slots: 0,
        totals: 0,
    }
}

/// Both tests and a send.
pub(crate) fn at_test(program: &Program) -> Place
    ensures { view_place result ≡ at_test (view_program program.now) }
{
    Place {
        words: IN_TESTS,
        fields: program.fields.len(),
        locals: 0,
        sends: 0,
        slots: program.slots.len(),
        totals: program.totals.len(),
    }
}

/// A place with so many lets.
pub(crate) fn with_lets(place: &Place, lets: usize) -> Place
    ensures { view_place result ≡ with_lets lets (view_place place.now) }
{
    Place {
        locals: lets,
        ..*place
    }
}

/// The loop body.
pub(crate) fn at_loop(lets: usize, program: &Program) -> Place
    ensures { view_place result ≡ at_loop lets (view_program program.now) }
{
    Place {
        words: IN_LOOP,
        fields: program.fields.len(),
        locals: lets,
        sends: 0,
        slots: program.slots.len(),
        totals: program.totals.len(),
    }
}

/// The sparse body.
pub(crate) fn at_sparse(sends: usize, program: &Program) -> Place
    ensures { view_place result ≡ at_sparse sends (view_program program.now) }
{
    Place {
        words: IN_SPARSE,
        fields: program.fields.len(),
        locals: 0,
        sends,
        slots: program.slots.len(),
        totals: program.totals.len(),
    }
}

/// Update.
pub(crate) fn at_update(program: &Program) -> Place
    ensures { view_place result ≡ at_update (view_program program.now) }
{
    Place {
        words: IN_UPDATE,
        fields: program.fields.len(),
        locals: 0,
        sends: 0,
        slots: program.slots.len(),
        totals: program.totals.len(),
    }
}

/// Stop.
pub(crate) fn at_stop(program: &Program) -> Place
    ensures { view_place result ≡ at_stop (view_program program.now) }
{
    Place {
        words: IN_STOP,
        fields: 0,
        locals: 0,
        sends: 0,
        slots: 0,
        totals: program.totals.len(),
    }
}
