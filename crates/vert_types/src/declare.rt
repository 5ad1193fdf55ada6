//! What the names of a program stand for, by its declarations.
#![tactic(auto)]

ghost use Rattle.std.specs.Prelude.{◌≡◌, ◌≤◌, IsTrue, IfOk, OnOk, length, map, None};
ghost use Rattle.std.specs.List.{list_all};
ghost use Rattle.vert_types.specs.Findings.{first_from};
ghost use Rattle.vert_types.specs.Parsed.{name_known};
ghost use Rattle.vert_types.specs.Tables.{AreDeclared, again_in, all_items, items_from, sort_of, table_after, twice_in, typed_decl, typed_slot, typed_total, with_item};
ghost use Rattle.vert_tree.specs.Places.{lets_in, sends_in};

use crate::findings::{DECLARED_BEFORE, Findings};
use crate::scope::Meaning;
use std::alloc::{AllocError, Global};
use vert_base::ValueType;
use vert_tree::{Decl, Dense, Ident, Program, SlotDecl, Sparse, TotalDecl, What};

/// The sorts of names that a program declares.
#[derive(Clone, Copy)]
pub(crate) enum Sort {
    Fields,
    Slots,
    Totals,
    Locals,
    Sends,
}

fn what_of(sort: Sort, place: u8) -> What
    ensures { result ≡ sort_of sort place }
{
    match sort {
        Sort::Fields => What::Field(place),
        Sort::Slots => What::Slot(place),
        Sort::Totals => What::Total(place),
        Sort::Locals => What::Local(place),
        Sort::Sends => What::Send(place),
    }
}

/// One declared name.
fn declare(
    name: &Ident,
    meaning: Meaning,
    meanings: &mut Vec<Option<Meaning>>,
    found: &mut Findings,
)
    requires { IsTrue (name_known (length meanings.old.items) name.now) }
    ensures table { meanings.new.items
        ≡ with_item meanings.old.items (record { name = name.now; meaning = meaning }) }
    ensures wide { length meanings.new.items ≡ length meanings.old.items }
    ensures faults { found.new.first
        ≡ first_from found.old.first
        (again_in meanings.old.items (record { name = name.now; meaning = meaning })) }
{
    let number = name.name as usize;
    if meanings[number].is_some() {
        found.note(DECLARED_BEFORE, name.span);
    } else {
        meanings[number] = Some(meaning);
    }
}

/// The fields, the lets or the sends.
fn declare_all(
    sort: Sort,
    decls: &[Decl],
    meanings: &mut Vec<Option<Meaning>>,
    found: &mut Findings,
)
    requires few { length decls.now ≤ 16 }
    requires known { IsTrue (list_all (λ d. name_known (length meanings.old.items) d.name)
        decls.now) }
    ensures table { meanings.new.items
        ≡ table_after meanings.old.items (items_from (sort_of sort) 0 (map typed_decl decls.now)) }
    ensures wide { length meanings.new.items ≡ length meanings.old.items }
    ensures faults { found.new.first
        ≡ first_from found.old.first
        (twice_in meanings.old.items (items_from (sort_of sort) 0 (map typed_decl decls.now))) }
{
    for (i, decl) in decls.iter().enumerate() {
        let meaning = Meaning {
            what: what_of(sort, i as u8),
            kind: decl.kind,
        };
        declare(&decl.name, meaning, meanings, found);
    }
}

fn declare_slots(slots: &[SlotDecl], meanings: &mut Vec<Option<Meaning>>, found: &mut Findings)
    requires few { length slots.now ≤ 8 }
    requires known { IsTrue (list_all (λ d. name_known (length meanings.old.items) d.name)
        slots.now) }
    ensures table { meanings.new.items
        ≡ table_after meanings.old.items
        (items_from (sort_of Sort.Slots) 0 (map typed_slot slots.now)) }
    ensures wide { length meanings.new.items ≡ length meanings.old.items }
    ensures faults { found.new.first
        ≡ first_from found.old.first
        (twice_in meanings.old.items
        (items_from (sort_of Sort.Slots) 0 (map typed_slot slots.now))) }
{
    for (i, slot) in slots.iter().enumerate() {
        let meaning = Meaning {
            what: what_of(Sort::Slots, i as u8),
            kind: ValueType::Int,
        };
        declare(&slot.name, meaning, meanings, found);
    }
}

fn declare_totals(totals: &[TotalDecl], meanings: &mut Vec<Option<Meaning>>, found: &mut Findings)
    requires few { length totals.now ≤ 4 }
    requires known { IsTrue (list_all (λ d. name_known (length meanings.old.items) d.name)
        totals.now) }
    ensures table { meanings.new.items
        ≡ table_after meanings.old.items
        (items_from (sort_of Sort.Totals) 0 (map typed_total totals.now)) }
    ensures wide { length meanings.new.items ≡ length meanings.old.items }
    ensures faults { found.new.first
        ≡ first_from found.old.first
        (twice_in meanings.old.items
        (items_from (sort_of Sort.Totals) 0 (map typed_total totals.now))) }
{
    for (i, total) in totals.iter().enumerate() {
        let meaning = Meaning {
            what: what_of(Sort::Totals, i as u8),
            kind: ValueType::Int,
        };
        declare(&total.name, meaning, meanings, found);
    }
}

fn declare_lets(dense: &Option<Dense>, meanings: &mut Vec<Option<Meaning>>, found: &mut Findings)
    requires few { length (lets_in dense.now) ≤ 8 }
    requires known { IsTrue (list_all (λ d. name_known (length meanings.old.items) d.name)
        (lets_in dense.now)) }
    ensures table { meanings.new.items
        ≡ table_after meanings.old.items
        (items_from (sort_of Sort.Locals) 0 (map typed_decl (lets_in dense.now))) }
    ensures wide { length meanings.new.items ≡ length meanings.old.items }
    ensures faults { found.new.first
        ≡ first_from found.old.first
        (twice_in meanings.old.items
        (items_from (sort_of Sort.Locals) 0 (map typed_decl (lets_in dense.now)))) }
{
    match dense {
        Some(block) => declare_all(Sort::Locals, &block.lets, meanings, found),
        None => {}
    }
}

fn declare_sends(sparse: &Option<Sparse>, meanings: &mut Vec<Option<Meaning>>, found: &mut Findings)
    requires few { length (sends_in sparse.now) ≤ 8 }
    requires known { IsTrue (list_all (λ d. name_known (length meanings.old.items) d.name)
        (sends_in sparse.now)) }
    ensures table { meanings.new.items
        ≡ table_after meanings.old.items
        (items_from (sort_of Sort.Sends) 0 (map typed_decl (sends_in sparse.now))) }
    ensures wide { length meanings.new.items ≡ length meanings.old.items }
    ensures faults { found.new.first
        ≡ first_from found.old.first
        (twice_in meanings.old.items
        (items_from (sort_of Sort.Sends) 0 (map typed_decl (sends_in sparse.now)))) }
{
    match sparse {
        Some(block) => declare_all(Sort::Sends, &block.sends, meanings, found),
        None => {}
    }
}

fn blank(alloc: Global, names: &[String]) -> Result<Vec<Option<Meaning>>, AllocError>
    ensures { IfOk result (λ meanings. meanings.items ≡ map (λ name. None) names.now) }
{
    names.iter().map(|_| None).collect(alloc)
}

/// What each name stands for, by its place among the names. A name that was declared before is noted.
pub(crate) fn meanings_of(
    alloc: Global,
    program: &Program,
    found: &mut Findings,
) -> Result<Vec<Option<Meaning>>, AllocError>
    requires { AreDeclared program.now }
    ensures table { IfOk result (λ meanings.
        meanings.items ≡ table_after (map (λ name. None) program.now.names.items)
        (all_items program.now)) }
    ensures faults { OnOk result (found.new.first
        ≡ first_from found.old.first
        (twice_in (map (λ name. None) program.now.names.items) (all_items program.now))) }
{
    let mut meanings = blank(alloc, &program.names)?;
    declare_all(Sort::Fields, &program.fields, &mut meanings, found);
    declare_slots(&program.slots, &mut meanings, found);
    declare_totals(&program.totals, &mut meanings, found);
    declare_lets(&program.dense, &mut meanings, found);
    declare_sends(&program.sparse, &mut meanings, found);
    Ok(meanings)
}
