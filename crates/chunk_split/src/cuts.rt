ghost use Rattle.std.specs.Prelude.{◌≡◌, ℕ, ◌<◌, ◌≤◌, ◌↔◌, IsSome, IfSome, length, slice_index};
ghost use Rattle.vert_base.specs.Neighbours.{turn_of};
ghost use Rattle.chunk_split.specs.Chunks.{AreEnds, Holds, vertices_of};
ghost use Rattle.vert_base.specs.Ends.{start_of};

use arrayvec::ArrayVec;
use std::marker::Model;
use vert_base::VertexId;

/// The chunks of the vertices, which stand side by side from vertex 0 on. Contracts see them as their ends.
#[derive(Clone, Debug, Drop)]
pub struct Cuts<const CAP: usize> {
    pub(crate) list: ArrayVec<u32, CAP>,
}

impl<const CAP: usize> Model for Cuts<CAP> {
    ghost use Rattle.std.specs.Prelude.{ℕ, List, ◌≤◌};
    ghost use Rattle.chunk_split.specs.Chunks.{AreEnds};

    ghost Value = { List ℕ };

    ghost view = { λ c. c.list.items };

    ghost invariant = { λ c. AreEnds CAP c.list.items × (CAP ≤ 64) };
}

impl<const CAP: usize> Cuts<CAP> {
    /// The chunks with these ends, where they are ends of chunks.
    pub fn from_ends(ends: &[u32]) -> Option<Cuts<CAP>>
        requires { CAP ≤ 64 }
        ensures some { IsSome result ↔ AreEnds CAP ends.now }
        ensures ends { IfSome result (λ cuts. cuts ≡ ends.now) }
    {
        if ends.is_empty() {
            return None;
        }
        if !ends.is_sorted() {
            return None;
        }
        match ArrayVec::try_from(ends) {
            Ok(list) => Some(Cuts { list }),
            Err(_) => None,
        }
    }

    /// Where the chunks end, one after another.
    pub fn ends(&self) -> &[u32]
        ensures value { result.now ≡ self.now }
        ensures ends { AreEnds CAP result.now }
    {
        self.list.as_slice()
    }

    /// How many chunks there are.
    pub fn count(&self) -> u8
        ensures value { result ≡ length self.now }
        ensures some { 1 ≤ result }
        ensures within { result ≤ CAP }
        ensures few { result ≤ 64 }
    {
        self.list.len() as u8
    }

    /// The first vertex of a chunk, or the end of the one before it where it is empty.
    pub fn start(&self, m: u8) -> u32
        requires { m < length self.now }
        ensures { result ≡ start_of self.now m }
    {
        if m == 0 { 0 } else { self.list[m as usize - 1] }
    }

    /// The vertex after the last one of a chunk.
    pub fn end(&self, m: u8) -> u32
        requires { m < length self.now }
        ensures value { result ≡ slice_index self.now m }
        ensures rises { start_of self.now m ≤ result }
        ensures within { result ≤ vertices_of self.now }
    {
        self.list[m as usize]
    }

    /// The chunk that holds a vertex, which is the machine that owns it.
    pub fn owner(&self, v: VertexId) -> u8
        requires { v.0 < vertices_of self.now }
        ensures holds { Holds self.now v.0 result }
        ensures alone { (m : ℕ) → Holds self.now v.0 m → m ≡ result }
        ensures turn { turn_of self.now v.0 ≡ slice_index self.now result }
    {
        self.list.partition_point(|end| *end <= v.0) as u8
    }

    /// The end of the chunk that holds a vertex: the sources from there on come first in its loop.
    pub fn turn(&self, v: VertexId) -> u32
        requires { v.0 < vertices_of self.now }
        ensures value { result ≡ turn_of self.now v.0 }
        ensures end { (m : ℕ) → Holds self.now v.0 m → result ≡ slice_index self.now m }
    {
        self.end(self.owner(v))
    }
}
