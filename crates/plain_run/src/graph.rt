ghost use Rattle.std.specs.Prelude.{◌≡◌, ◌<◌, ◌≤◌, length};
ghost use Rattle.vert_base.specs.declared.limits.TheConstants.{EDGES, VERTICES};
ghost use Rattle.vert_eval.specs.Rounds.{indegree, members_of, outdegree};
ghost use Rattle.plain_run.specs.Views.{AreInside, members_in};

use chunk_split::Cuts;
use graph_table::{Side, Table, split_below};
use std::marker::Model;
use vert_base::limits::MACHINES;
use vert_base::{Edge, VertexId};

/// A graph as its loops read it: its table, and the chunks by whose ends they begin. Contracts see
/// it as the graph that the table holds.
#[derive(Drop)]
pub(crate) struct Graph<'a> {
    pub table: &'a Table,
    pub cuts: &'a Cuts<MACHINES>,
}

/// The edges into a vertex in the order in which its loop reads them: the first, then the rest.
#[derive(Drop)]
pub(crate) struct Members<'a> {
    pub first: &'a [Edge],
    pub rest: &'a [Edge],
}

impl<'a> Model for Graph<'a> {
    ghost use Rattle.vert_eval.specs.Rounds as meaning;
    ghost use Rattle.plain_run.specs.Inside.{graph_inside, IsCutWhole};

    ghost Value = { meaning.Graph };

    ghost view = { graph_inside };

    ghost invariant = { IsCutWhole };
}

impl<'a> Graph<'a> {
    /// How many vertices there are.
    pub(crate) fn vertices(&self) -> u32
        ensures value { result ≡ self.now.vertices }
        ensures within { result ≤ VERTICES }
    {
        self.table.vertices()
    }

    /// How many edges there are.
    pub(crate) fn edges(&self) -> u32
        ensures value { result ≡ length self.now.edges }
        ensures within { result ≤ EDGES }
    {
        self.table.edges()
    }

    /// How many edges end at a vertex.
    pub(crate) fn indegree(&self, v: u32) -> u32
        requires { v < self.now.vertices }
        ensures { result ≡ indegree self.now v }
    {
        let _vertices = self.table.vertices();
        self.table.indeg(VertexId(v))
    }

    /// How many edges begin at a vertex.
    pub(crate) fn outdegree(&self, v: u32) -> u32
        requires { v < self.now.vertices }
        ensures { result ≡ outdegree self.now v }
    {
        let _vertices = self.table.vertices();
        self.table.outdeg(VertexId(v))
    }

    /// The edges into a vertex in the order in which its loop reads them.
    pub(crate) fn members_of(&self, v: u32) -> Members<'_>
        requires { v < self.now.vertices }
        ensures members { members_in result ≡ members_of self.now v }
        ensures inside { AreInside self.now.vertices result }
        ensures few { length (members_in result) ≤ EDGES }
    {
        let _vertices = self.table.vertices();
        let turn = self.cuts.turn(VertexId(v));
        let (rest, first) = split_below(self.table.ins(VertexId(v)), Side::Source, turn);
        Members { first, rest }
    }
}
