// The table of a run that is finished.
ghost use Rattle.std.specs.Prelude.{◌≡◌, ◌<◌, false, length};
ghost use Rattle.array_text.specs.Writes.{Writes};
ghost use Rattle.schedule_laws.specs.Layout.{table_of, vertices_in};
ghost use Rattle.machine_runs.specs.PlainPlays.{line_of, rows_of};
ghost use Rattle.command_steps.specs.States.{sink_state};
ghost use Rattle.command_steps.specs.Walks.{HandsOn};

use array_text::{write_header, write_row};
use arrayvec::ArrayVec;
use cluster_run::Cluster;
use command_steps::flush;
use outside::{Sink, SinkFault};
use symple_face::Site;
use vert_base::limits::MACHINES;
use vert_base::{Row, VertexId};

/// Puts the table of what the machines hold, and has it handed on.
pub fn put_table<S: Site, O: Sink>(
    cluster: &Cluster<S, MACHINES>,
    out: &mut O,
) -> Result<(), SinkFault>
    requires on { cluster.now.ended ≡ false }
    ensures { HandsOn (table_of S.work cluster.now.world)
        (sink_state O.held O.faults O.spare out.old)
        (sink_state O.held O.faults O.spare out.new) result }
{
    write_table(cluster, out)?;
    flush(out)
}

/// Puts a header, then a line for each vertex.
fn write_table<S: Site, O: Sink>(
    cluster: &Cluster<S, MACHINES>,
    out: &mut O,
) -> Result<(), SinkFault>
    requires on { cluster.now.ended ≡ false }
    ensures { Writes O.held O.faults O.spare out.old out.new
        (table_of S.work cluster.now.world) result }
{
    cluster.tells_reached();
    write_header(&cluster.site(0).part().split, out)?;
    write_rows(cluster, out)
}

/// Puts the line of each vertex.
fn write_rows<S: Site, O: Sink>(
    cluster: &Cluster<S, MACHINES>,
    out: &mut O,
) -> Result<(), SinkFault>
    requires on { cluster.now.ended ≡ false }
    ensures { Writes O.held O.faults O.spare out.old out.new
        (rows_of S.work cluster.now.world) result }
{
    cluster.tells_reached();
    let mut row = Row {
        words: ArrayVec::new(),
        active: false,
    };
    'vertices: for v in 0..vertices(cluster) {
        write_line(cluster, VertexId(v), &mut row, out)?;
    }
    Ok(())
}

/// How many vertices the graph has.
pub fn vertices<S: Site>(cluster: &Cluster<S, MACHINES>) -> u32
    requires on { cluster.now.ended ≡ false }
    ensures { result ≡ length (vertices_in cluster.now.world) }
{
    cluster.tells_reached();
    let cuts = &cluster.site(0).part().cuts;
    cuts.end(cuts.count() - 1)
}

/// Puts the line of a vertex, which the machine of its chunk tells.
pub fn write_line<S: Site, O: Sink>(
    cluster: &Cluster<S, MACHINES>,
    v: VertexId,
    row: &mut Row,
    out: &mut O,
) -> Result<(), SinkFault>
    requires on { cluster.now.ended ≡ false }
    requires there { v.0 < length (vertices_in cluster.now.world) }
    ensures { Writes O.held O.faults O.spare out.old out.new
        (line_of S.work cluster.now.world v.0) result }
{
    cluster.tells_reached();
    let part = cluster.site(0).part();
    cluster.site(part.cuts.owner(v)).row(v, row);
    write_row(&part.split, v, row, out)
}
