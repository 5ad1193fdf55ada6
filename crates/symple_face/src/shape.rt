// The forms of the messages of a machine.
ghost use Rattle.std.specs.Prelude.{◌≡◌, ◌≤◌, ◌<◌, true, [], length, map, slice_index_or, filter, ◌&&◌, nat_le, nat_lt};
ghost use Rattle.vert_base.specs.declared.limits.TheConstants.{VERTICES};
ghost use Rattle.symple_face.specs.Parts.{lists_of};
ghost use Rattle.symple_face.specs.PartViews.{plain_of};
ghost use Rattle.symple_face.specs.Plans.{is_planned};
ghost use Rattle.symple_face.specs.Shapes.{form_of, half_in, pushed, refreshed, shape_of, updated};

use crate::part::Part;
use crate::plans::{chunk, is_planned};
use crate::words::{
    bits_before, carried_bits, carry_words, fields, reduced_count, sends, slot_count, total_count,
    verdict_form,
};
use body_shape::BodyShape;
use circulant_plan::half;
use instrument::Split;
use vert_base::{Name, NameKind, VertexId};

// The list of a machine.
fn list_at(lists: &[Vec<VertexId>], machine: u8) -> &[VertexId]
    ensures { map (λ v. v.0) result.now ≡ slice_index_or (lists_of lists.now) machine [] }
{
    match lists.get(usize::from(machine)) {
        Some(list) => list,
        None => &[],
    }
}

// How many vertices of a list lie from the first to the second of two.
fn count_within(range: (u32, u32), vertices: &[VertexId]) -> usize
    ensures value { result ≡ length
        (filter (λ v. nat_le range.0 v.0 && nat_lt v.0 range.1) vertices.now) }
    ensures within { result ≤ length vertices.now }
{
    vertices
        .iter()
        .filter(|v| range.0 <= v.0 && v.0 < range.1)
        .count()
}

impl Part {
    /// The form of a message's body, where the machine sends or takes a message of that name in some run of
    /// the program. It takes no memory.
    pub fn shape(&self, name: &Name) -> Option<BodyShape>
        ensures { result ≡ shape_of self.now.split.value (plain_of self.now) name.now }
    {
        let split: &Split = &self.split;
        if is_planned(split, self.at.count(), self.at.number(), name) {
            Some(self.form(name))
        } else {
            None
        }
    }

    fn form(&self, name: &Name) -> BodyShape
        requires { is_planned self.now.split.value self.now.at.machines self.now.at.machine
            name.now ≡ true }
        ensures { result ≡ form_of self.now.split.value (plain_of self.now) name.now.kind name.now }
    {
        match name.kind {
            NameKind::Refresh => self.refresh_form(name),
            NameKind::Dep => self.dep_form(name),
            NameKind::Update => self.update_form(name),
            NameKind::Push => self.push_form(name),
            NameKind::Tally => BodyShape::Tally {
                totals: total_count(&self.split),
            },
            NameKind::Verdict => verdict_form(&self.split, name.round),
        }
    }

    fn refresh_form(&self, name: &Name) -> BodyShape
        ensures { result ≡ form_of self.now.split.value (plain_of self.now) NameKind.Refresh
            name.now }
    {
        let fields = fields(&self.split);
        BodyShape::Refresh {
            vertices: self.refreshed(name).len() as u32,
            words: fields.len() as u8 + 1,
            bools: bits_before(fields, 1),
        }
    }

    fn dep_form(&self, name: &Name) -> BodyShape
        requires from { name.now.from < self.now.at.machines }
        requires step { name.now.step < self.now.at.machines }
        requires half { name.now.half ≤ 1 }
        ensures { result ≡ form_of self.now.split.value (plain_of self.now) NameKind.Dep name.now }
    {
        let (start, end) = self.half_of(chunk(name.from, name.step, self.at.count()), name.half);
        BodyShape::Dep {
            vertices: end - start,
            words: carry_words(&self.split),
            bools: carried_bits(&self.split),
        }
    }

    fn update_form(&self, name: &Name) -> BodyShape
        requires to { name.now.to < self.now.at.machines }
        requires half { name.now.half ≤ 1 }
        ensures { result ≡ form_of self.now.split.value (plain_of self.now) NameKind.Update
            name.now }
    {
        BodyShape::Update {
            vertices: count_within(self.half_of(name.to, name.half), self.updated(name)) as u32,
            slots: slot_count(&self.split),
            reduced: reduced_count(&self.split),
        }
    }

    fn push_form(&self, name: &Name) -> BodyShape
        ensures { result ≡ form_of self.now.split.value (plain_of self.now) NameKind.Push name.now }
    {
        let sends = sends(&self.split);
        BodyShape::Push {
            vertices: self.pushed(name).len() as u32,
            words: sends.len() as u8,
            bools: bits_before(sends, 0) as u8,
        }
    }

    // The half of a chunk.
    fn half_of(&self, machine: u8, h: u8) -> (u32, u32)
        requires machine { machine < self.now.at.machines }
        requires half { h ≤ 1 }
        ensures value { result ≡ half_in self.now.cuts machine h }
        ensures rises { result.0 ≤ result.1 }
    {
        half(self.cuts.start(machine), self.cuts.end(machine), h)
    }

    // The vertices whose rows a refresh tells.
    fn refreshed(&self, name: &Name) -> &[VertexId]
        ensures list { map (λ v. v.0) result.now ≡ refreshed (plain_of self.now) name.now }
        ensures few { length result.now ≤ VERTICES }
    {
        if name.from == self.at.number() {
            list_at(&self.refresh_to, name.to)
        } else {
            list_at(&self.refresh_of, name.from)
        }
    }

    // The vertices that an update is about.
    fn updated(&self, name: &Name) -> &[VertexId]
        ensures list { map (λ v. v.0) result.now ≡ updated (plain_of self.now) name.now }
        ensures few { length result.now ≤ VERTICES }
    {
        if name.from == self.at.number() {
            list_at(&self.refresh_of, name.to)
        } else {
            list_at(&self.refresh_to, name.from)
        }
    }

    // The vertices whose sends a push tells.
    fn pushed(&self, name: &Name) -> &[VertexId]
        ensures list { map (λ v. v.0) result.now ≡ pushed (plain_of self.now) name.now }
        ensures few { length result.now ≤ VERTICES }
    {
        if name.from == self.at.number() {
            list_at(&self.push_to, name.to)
        } else {
            list_at(&self.push_of, name.from)
        }
    }
}
