// What stays as it is over a run.
ghost use Rattle.std.specs.Prelude.{◌≡◌};
ghost use Rattle.vert_code.specs.Blocks.{code_of, lists_of};
ghost use Rattle.symple_face.specs.Lawful.{CanRun};
ghost use Rattle.symple_face.specs.PartViews.{plain_of};
ghost use Rattle.machine_parts.specs.Spans.{AreGroups};

use crate::lists::list_at;
use circulant_plan::{Ring, half};
use instrument::Split;
use machine_parts::{Groups, SentWords, Setting};
use symple_face::{Degree, Part};
use vert_code::Code;
use vert_tree::Program;

/// A part of a graph, with the code of its program and the tables of its edges.
#[derive(Drop)]
pub struct Ground {
    pub part: Part,
    pub code: Code,
    pub groups: Groups,
    ghost can: { CanRun (plain_of part) part.split.value },
    ghost compiled: { lists_of code ≡ code_of part.split.value.program.program },
    ghost grouped: { AreGroups (plain_of part) groups },
}

impl Ground {
    ghost use Rattle.std.specs.Prelude.{◌≡◌, ◌≢◌, ◌≤◌, ◌<◌, ◌+◌, ◌^◌, [], length, slice_index_or};
    ghost use Rattle.std.specs.List.{flat_map, range_with_len};
    ghost use Rattle.chunk_split.specs.Chunks.{vertices_of};
    ghost use Rattle.vert_base.specs.declared.limits.TheConstants.{VERTICES};
    ghost use Rattle.vert_base.specs.Ends.{start_of};
    ghost use Rattle.symple_face.specs.PartViews.{plain_of};
    ghost use Rattle.symple_face.specs.Parts.{chunk_vertices};
    ghost use Rattle.symple_face.specs.CoreTakes.{slot_count};
    ghost use Rattle.symple_face.specs.Plans.{ring_of};
    ghost use Rattle.symple_face.specs.Shapes.{half_in, reduced_in};
    ghost use Rattle.vertex_work.specs.Known.{AreDegreesOf, known_in};

    /// The number of the machine.
    pub fn machine(&self) -> u8
        ensures number { result ≡ self.now.part.at.machine }
        ensures below { result < self.now.part.at.machines }
    {
        self.part.at.number()
    }

    /// How many machines there are.
    pub fn machines(&self) -> u8
        ensures count { result ≡ self.now.part.at.machines }
        ensures some { 1 ≤ result }
        ensures few { result ≤ 64 }
        ensures ends { result ≡ length self.now.part.cuts }
    {
        self.part.at.count()
    }

    /// The program, with how its loop is split.
    pub fn split(&self) -> &Split
        ensures { result.now ≡ self.now.part.split.value }
    {
        &self.part.split
    }

    /// The program as it was read.
    pub fn program(&self) -> &Program
        ensures { result.now ≡ self.now.part.split.value.program.program }
    {
        &self.split().program.program
    }

    /// The machines in their ring, as the program's loop goes around it.
    pub fn ring(&self) -> Ring
        ensures { result ≡ ring_of self.now.part.split.value self.now.part.at.machines }
    {
        let carry = match &self.split().dense {
            Some(dense) => dense.carry.is_some(),
            None => false,
        };
        Ring {
            machines: self.machines(),
            carry,
        }
    }

    /// The first own vertex.
    pub fn start(&self) -> u32
        ensures start { result ≡ start_of self.now.part.cuts self.now.part.at.machine }
        ensures few { result ≤ VERTICES }
    {
        let _machines = self.machines();
        self.part.cuts.start(self.machine())
    }

    /// How many own vertices there are.
    pub fn own_count(&self) -> usize
        ensures count { result
            ≡ length (chunk_vertices self.now.part.cuts self.now.part.at.machine) }
        ensures within { start_of self.now.part.cuts self.now.part.at.machine + result ≤ VERTICES }
    {
        let _machines = self.machines();
        let machine = self.machine();
        (self.part.cuts.end(machine) - self.part.cuts.start(machine)) as usize
    }

    /// Where half `h` of a chunk starts and ends.
    pub fn half(&self, chunk: u8, h: u8) -> (u32, u32)
        requires chunk { chunk < self.now.part.at.machines }
        requires half { h ≤ 1 }
        ensures { result ≡ half_in self.now.part.cuts chunk h }
    {
        let _machines = self.machines();
        half(self.part.cuts.start(chunk), self.part.cuts.end(chunk), h)
    }

    /// How many words an update may tell of a vertex.
    pub fn sent_words(&self) -> SentWords
        ensures slots { result.slots ≡ slot_count self.now.part.split.value }
        ensures reduced { result.reduced ≡ length (reduced_in self.now.part.split.value.dense) }
        ensures few { result.slots ≤ 8 }
        ensures few_reduced { result.reduced ≤ 8 }
    {
        let reduced = match &self.split().dense {
            Some(dense) => dense.reduced.len(),
            None => 0,
        };
        SentWords {
            slots: self.program().slots.len(),
            reduced,
        }
    }

    /// How many totals the program has, at most four.
    pub fn few_totals(&self) -> usize
        ensures count { result ≡ length self.now.part.split.value.program.program.totals.items }
        ensures few { result ≤ 4 }
    {
        self.program().totals.len()
    }

    /// What is the same for all vertices in a round.
    pub fn setting(&self, round: u32) -> Setting
        ensures vertices { result.vertices ≡ vertices_of self.now.part.cuts }
        ensures round { result.round ≡ round }
        ensures draws { result.draws ≡ self.now.part.draws }
        ensures slots { result.slots
            ≡ length self.now.part.split.value.program.program.slots.items }
    {
        let _machines = self.machines();
        Setting {
            vertices: self.part.cuts.end(self.machines() - 1),
            round,
            draws: self.part.draws,
            slots: self.program().slots.len(),
        }
    }

    // Of how many vertices of a chunk the degrees are known.
    fn known_count(&self, chunk: u8) -> usize
        requires { chunk < self.now.part.at.machines }
        ensures { result ≡ length (known_in (plain_of self.now.part) chunk) }
    {
        if chunk == self.machine() {
            self.own_count()
        } else {
            list_at(&self.part.refresh_of, chunk).len()
        }
    }

    // Where the degrees of a chunk's vertices begin.
    fn known_before(&self, chunk: u8) -> usize
        requires { chunk < self.now.part.at.machines }
        ensures { result
            ≡ length (flat_map (known_in (plain_of self.now.part)) (range_with_len 0 chunk)) }
    {
        let mut count = 0;
        'chunks: for k in 0..chunk {
            count += self.known_count(k);
        }
        count
    }

    /// The degrees of those vertices of a chunk that are known: of the own one all, of another one
    /// those whose rows its machine tells. It takes as many steps as there are machines.
    pub fn degrees(&self, chunk: u8) -> &[Degree]
        requires { chunk < self.now.part.at.machines }
        ensures { AreDegreesOf (plain_of self.now.part)
            (known_in (plain_of self.now.part) chunk) result.now }
    {
        let before = self.known_before(chunk);
        let count = self.known_count(chunk);
        let (_, rest) = self.part.degrees.split_at(before);
        let (known, _) = rest.split_at(count);
        known
    }
}
