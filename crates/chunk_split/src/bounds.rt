ghost use Rattle.std.specs.Prelude.{◌≡◌, ℕ, ◌<◌, ◌≤◌, ◌+◌, ◌*◌, ◌^◌, List, drop, sum};
ghost use Rattle.vert_base.specs.declared.graph.Edge.{Edge};
ghost use Rattle.graph_table.specs.Tables.{IsTableOf};
ghost use Rattle.chunk_split.specs.Bounds.{AreBounds, cost_of, costs_of, ends_of, reach};
ghost use Rattle.chunk_split.specs.Chunks.{vertices_of};

use crate::cuts::Cuts;
use arrayvec::ArrayVec;
use graph_table::Table;
use vert_base::VertexId;

/// Where a chunk ends, and what its vertices cost.
#[derive(Clone, Copy)]
struct Chunk {
    end: u32,
    cost: u64,
}

/// What a vertex costs among so many machines.
#[inline]
fn cost(table: &Table, machines: u8, v: u32) -> u64
    requires some { 1 ≤ machines }
    requires below { v < table.now.vertices }
    ensures value { result ≡ cost_of machines table.now.vertices table.now.list v }
    ensures small { result ≤ 2 ^ 24 }
{
    8 * u64::from(machines - 1) + u64::from(table.outdeg(VertexId(v)))
}

/// What all vertices cost.
fn total(table: &Table, machines: u8) -> u64
    requires { 1 ≤ machines }
    ensures value { result ≡ sum (costs_of machines table.now.vertices table.now.list) }
    ensures small { result ≤ 2097152 * 2 ^ 24 }
{
    let mut sum = 0u64;
    for v in 0..table.vertices() {
        sum += cost(table, machines, v);
    }
    sum
}

/// The chunk from a vertex on whose costs reach `need`.
fn chunk_from(table: &Table, machines: u8, start: u32, need: u64) -> Chunk
    requires some { 1 ≤ machines }
    requires within { start ≤ table.now.vertices }
    ensures end { result.end ≡ start
        + reach need (drop start (costs_of machines table.now.vertices table.now.list)) }
    ensures cost { result.cost
        + sum (drop result.end (costs_of machines table.now.vertices table.now.list))
        ≡ sum (drop start (costs_of machines table.now.vertices table.now.list)) }
    ensures within { result.end ≤ table.now.vertices }
{
    let mut sum = 0u64;
    for v in start..table.vertices() {
        if sum >= need {
            return Chunk { end: v, cost: sum };
        }
        sum += cost(table, machines, v);
    }
    Chunk {
        end: table.vertices(),
        cost: sum,
    }
}

/// Cuts the vertices into `p` chunks of about the same cost.
pub fn cuts_of<const CAP: usize>(table: &Table, p: u8) -> Cuts<CAP>
    requires some { 1 ≤ p }
    requires room { p ≤ CAP }
    requires few { CAP ≤ 64 }
    ensures ends { result ≡ ends_of p table.now.vertices table.now.list }
    ensures bounds { AreBounds p (costs_of p table.now.vertices table.now.list) result }
    ensures whole { vertices_of result ≡ table.now.vertices }
    ensures graph { (n : ℕ) (edges : List Edge) → IsTableOf n edges table.now →
        result ≡ ends_of p n edges }
{
    let mut list = ArrayVec::new();
    let mut rest = total(table, p);
    let mut start = 0u32;
    for i in 0..p - 1 {
        let left = u64::from(p - i);
        let chunk = chunk_from(table, p, start, rest.div_ceil(left));
        list.push(chunk.end);
        rest -= chunk.cost;
        start = chunk.end;
    }
    list.push(table.vertices());
    Cuts { list }
}
