// Whether the edges of a file are those of a part.
ghost use Rattle.std.specs.Prelude.{◌≡◌, ◌<◌, length};
ghost use Rattle.graph_table.specs.Sides.{key_of};
ghost use Rattle.worker_stream.specs.Orders.{are_edges_behind, fits_chunk, may_follow};

use chunk_split::Cuts;
use graph_table::{Side, end_of};
use vert_base::Edge;
use vert_base::limits::MACHINES;

fn may_follow(before: (u32, u32), here: (u32, u32)) -> bool
    ensures { result ≡ may_follow before here }
{
    before.0 < here.0 || before.0 == here.0 && before.1 <= here.1
}

fn fits_chunk(cuts: &Cuts<MACHINES>, machine: u8, here: (u32, u32)) -> bool
    requires { machine < length cuts.now }
    ensures { result ≡ fits_chunk cuts.now machine here }
{
    let vertices = cuts.end(cuts.count() - 1);
    cuts.start(machine) <= here.1 && here.1 < cuts.end(machine) && here.0 < vertices
}

/// Whether these are edges whose minor end lies in a chunk, by their major ends, equal ones by their
/// minor ends.
pub(crate) fn are_edges(
    cuts: &Cuts<MACHINES>,
    machine: u8,
    edges: &[Edge],
    major: Side,
    minor: Side,
) -> bool
    requires { machine < length cuts.now }
    ensures { result ≡ are_edges_behind cuts.now machine (key_of major) (key_of minor) (0, 0)
        edges.now }
{
    let mut before = (0, 0);
    for edge in edges {
        let here = (end_of(major, edge), end_of(minor, edge));
        if !(fits_chunk(cuts, machine, here) && may_follow(before, here)) {
            return false;
        }
        before = here;
    }
    true
}
