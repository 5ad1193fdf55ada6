// The own vertices as receivers.
ghost use Rattle.std.specs.Prelude.{◌≡◌, ◌≤◌, ◌+◌, ◌^◌, length};
ghost use Rattle.std.specs.List.{All};
ghost use Rattle.vertex_work.specs.Received.{IsReceived};

use crate::ground::Ground;
use machine_parts::Rows;
use symple_face::Degree;
use vert_base::Edge;
use vert_code::Code;

/// The own vertices as receivers of what is sent over edges: the code that they run, the edges that
/// lead to them by ascending source, and their rows and degrees. They begin at `start` and end
/// before `end`, of so many vertices of the graph.
#[derive(Drop)]
pub struct Receivers<'a> {
    pub code: &'a Code,
    pub edges: &'a [Edge],
    pub rows: &'a Rows,
    pub degrees: &'a [Degree],
    pub vertices: u32,
    pub start: u32,
    pub end: u32,
    ghost received: { All (IsReceived start (length degrees.now) (length rows.now.rows) vertices)
        edges.now },
    ghost within: { end ≤ vertices },
    ghost few: { vertices ≤ 2 ^ 24 },
    ghost own: { start + length rows.now.rows ≤ 2 ^ 24 },
    ghost whole: { start + length rows.now.rows ≡ end },
    ghost each: { length degrees.now ≡ length rows.now.rows },
}

impl<'a> Receivers<'a> {
    ghost use Rattle.std.specs.Prelude.{◌≡◌, length};
    ghost use Rattle.symple_face.specs.PartViews.{plain_of};
    ghost use Rattle.symple_face.specs.Parts.{chunk_vertices};
    ghost use Rattle.vertex_work.specs.Receiving.{IsReceiving};

    /// The own vertices of a part, with their rows.
    pub fn of(ground: &'a Ground, rows: &'a Rows) -> Receivers<'a>
        requires { length rows.now.rows
            ≡ length (chunk_vertices ground.now.part.cuts ground.now.part.at.machine) }
        ensures { IsReceiving (plain_of ground.now.part) ground.now.code rows.now result }
    {
        let machines = ground.machines();
        let machine = ground.machine();
        Receivers {
            code: &ground.code,
            edges: &ground.part.push,
            rows,
            degrees: ground.degrees(machine),
            vertices: ground.part.cuts.end(machines - 1),
            start: ground.part.cuts.start(machine),
            end: ground.part.cuts.end(machine),
        }
    }
}
