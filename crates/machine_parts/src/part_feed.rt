// The neighbours of a vertex that lie with a machine.
ghost use Rattle.std.specs.Prelude.{◌≡◌, ◌<◌, ◌≤◌, ◌-◌, [], length, take, drop, map};
ghost use Rattle.std.specs.List.{All};
ghost use Rattle.machine_parts.specs.Neighbours.{AreOwn, member_in};

use crate::rows::Rows;
use symple_face::{Degree, Feed};
use vert_base::{Edge, Neighbour, Row};

/// The sources of some edges, which are a machine's own vertices, with their rows. The own vertices
/// begin at `start`, and each has its place in `rows` and `degrees`; `given` counts the sources
/// that were given.
#[derive(Drop)]
pub struct PartFeed<'a> {
    pub edges: &'a [Edge],
    pub given: usize,
    pub rows: &'a Rows,
    pub degrees: &'a [Degree],
    pub start: u32,
    ghost own: { AreOwn start (length degrees.now) (length rows.now.rows) edges.now },
}

impl<'a> Feed for PartFeed<'a> {
    ghost given = { λ f.
        map (member_in f.start f.degrees.now f.rows.now.rows) (take f.given f.edges.now) };

    ghost left = { λ f.
        map (member_in f.start f.degrees.now f.rows.now.rows) (drop f.given f.edges.now) };

    fn next(&mut self, row: &mut Row) -> Option<Neighbour> {
        let edge = self.edges.get(self.given)?;
        let place = (edge.from.0 - self.start) as usize;
        let degree = self.degrees[place];
        self.rows.read(place, row);
        self.given += 1;
        Some(Neighbour {
            id: edge.from,
            weight: i64::from(edge.weight),
            indeg: degree.ins,
            outdeg: degree.outs,
        })
    }
}
