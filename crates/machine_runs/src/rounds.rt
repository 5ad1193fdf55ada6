// The lines of the rounds.
ghost use Rattle.std.specs.Prelude.{◌≡◌, ◌<◌, ◌==◌, [], false, if◌then◌else◌, not, length, map};
ghost use Rattle.array_text.specs.Reads.{sources_text};
ghost use Rattle.array_text.specs.Rounds.{round_text};
ghost use Rattle.array_text.specs.Writes.{Writes};
ghost use Rattle.schedule_laws.specs.Layout.{reads_by_steps, reads_in, told_in, vertices_in};
ghost use Rattle.schedule_laws.specs.Texts.{read_line, read_lines, told_lines};
ghost use Rattle.machine_runs.specs.PlainPlays.{ends_round, first_report};

use crate::table::vertices;
use array_text::{put_all, write_read_head, write_reads, write_round};
use circulant_plan::{Spot, order};
use cluster_run::Cluster;
use outside::{Sink, SinkFault};
use symple_face::{Report, Site};
use symple_words::Lines;
use vert_base::limits::MACHINES;
use vert_base::{Event, VertexId};

/// Whether an event is the one in which machine 0 judges a round that took place.
pub fn ends_round<S: Site>(cluster: &Cluster<S, MACHINES>, event: &Event) -> bool
    ensures { result ≡ ends_round cluster.now.world event.now }
{
    match event {
        Event::Go(0) if cluster.machines() > 0 => {
            matches!(cluster.site(0).spot(), Spot::Judge { round } if round >= 1)
        }
        _ => false,
    }
}

/// Puts what is asked for of the round that machine 0 has judged: `--rounds`, and then `--reads`.
pub(crate) fn write_round_of<S: Site, O: Sink>(
    cluster: &Cluster<S, MACHINES>,
    lines: &Lines,
    out: &mut O,
) -> Result<(), SinkFault>
    requires on { cluster.now.ended ≡ false }
    ensures { Writes O.held O.faults O.spare out.old out.new (told_lines lines.now
        (told_in lines.now.reads S.work cluster.now.world (first_report S.work cluster.now.world)))
        result }
{
    cluster.tells_reached();
    let report = cluster.site(0).report();
    write_report(lines.rounds, &report, out)?;
    write_asked(lines.reads, cluster, report.round, out)
}

/// Puts the line of a round, where it is asked for.
fn write_report<O: Sink>(asked: bool, report: &Report, out: &mut O) -> Result<(), SinkFault>
    ensures { Writes O.held O.faults O.spare out.old out.new
        (if asked then round_text report.now.round report.now.ruling report.now.active
        report.now.edges report.now.reads else []) result }
{
    if asked {
        write_round(report, out)
    } else {
        Ok(())
    }
}

/// Puts the read lines of a round, where they are asked for.
fn write_asked<S: Site, O: Sink>(
    asked: bool,
    cluster: &Cluster<S, MACHINES>,
    round: u32,
    out: &mut O,
) -> Result<(), SinkFault>
    requires on { cluster.now.ended ≡ false }
    ensures { Writes O.held O.faults O.spare out.old out.new (if asked then read_lines round 0
        (map (reads_in S.work cluster.now.world) (vertices_in cluster.now.world)) else []) result }
{
    if asked {
        write_read_lines(cluster, round, out)
    } else {
        Ok(())
    }
}

/// Puts a line for each vertex that read others in the round that was judged.
fn write_read_lines<S: Site, O: Sink>(
    cluster: &Cluster<S, MACHINES>,
    round: u32,
    out: &mut O,
) -> Result<(), SinkFault>
    requires on { cluster.now.ended ≡ false }
    ensures { Writes O.held O.faults O.spare out.old out.new (read_lines round 0
        (map (reads_in S.work cluster.now.world) (vertices_in cluster.now.world))) result }
{
    'vertices: for v in 0..vertices(cluster) {
        write_read_line(cluster, round, VertexId(v), out)?;
    }
    Ok(())
}

/// Puts the line of a vertex, where it read others.
fn write_read_line<S: Site, O: Sink>(
    cluster: &Cluster<S, MACHINES>,
    round: u32,
    v: VertexId,
    out: &mut O,
) -> Result<(), SinkFault>
    requires on { cluster.now.ended ≡ false }
    requires there { v.0 < length (vertices_in cluster.now.world) }
    ensures { Writes O.held O.faults O.spare out.old out.new
        (read_line round v.0 (reads_in S.work cluster.now.world v.0)) result }
{
    cluster.tells_reached();
    let chunk = cluster.site(0).part().cuts.owner(v);
    if !has_read(cluster, v, chunk) {
        return Ok(());
    }
    write_read_head(round, v, out)?;
    write_sources(cluster, v, chunk, out)?;
    put_all(out, b"\n")
}

/// Whether some machine read for a vertex of a chunk.
fn has_read<S: Site>(cluster: &Cluster<S, MACHINES>, v: VertexId, chunk: u8) -> bool
    requires chunk { chunk < length cluster.now.world.sites }
    ensures { result
        ≡ not (length (reads_by_steps S.work cluster.now.world chunk v.0) == 0) }
{
    let machines = cluster.machines();
    'steps: for step in 0..machines {
        if !cluster
            .site(order(chunk, step, machines))
            .reads(v)
            .is_empty()
        {
            return true;
        }
    }
    false
}

/// Puts what the machines read for a vertex of a chunk, in the order of the steps.
fn write_sources<S: Site, O: Sink>(
    cluster: &Cluster<S, MACHINES>,
    v: VertexId,
    chunk: u8,
    out: &mut O,
) -> Result<(), SinkFault>
    requires chunk { chunk < length cluster.now.world.sites }
    ensures { Writes O.held O.faults O.spare out.old out.new
        (sources_text (reads_by_steps S.work cluster.now.world chunk v.0)) result }
{
    let machines = cluster.machines();
    'steps: for step in 0..machines {
        write_reads(cluster.site(order(chunk, step, machines)).reads(v), out)?;
    }
    Ok(())
}
