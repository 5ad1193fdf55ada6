ghost use Rattle.std.specs.Prelude.{◌≡◌, Some, None, IfOk, IfErr};
ghost use Rattle.symple_words.specs.Answers.{Refuses};
ghost use Rattle.symple_words.specs.Lines.{line_from};
ghost use Rattle.symple_words.specs.Readings.{given_of};
ghost use Rattle.symple_words.specs.Views.{line_view};
ghost use Rattle.symple_words.specs.declared.verb.Verb.TheVariants as verb;

use crate::fault::WordFault;
use crate::line::Line;
use crate::parts::{
    draws_of, flag, found, graph_form_of, job_of, machines_of, machines_or_four, name_at, name_if,
    seed_of,
};
use crate::reading::Reading;
use std::alloc::Global;

/// A line of `run`.
pub(crate) fn run_line(alloc: Global, reading: &Reading) -> Result<Line, WordFault>
    ensures ok { IfOk result (λ line. line_from verb.Run (given_of reading.now)
        ≡ Some (line_view line)) }
    ensures err { IfErr result (Refuses (line_from verb.Run (given_of reading.now) ≡ None)) }
{
    let job = job_of(alloc, reading)?;
    let machines = found(machines_of(reading))?;
    let image = name_if(alloc, reading, "image")?;
    Ok(Line::RunLine {
        job,
        machines,
        image,
    })
}

/// A line of `record`.
pub(crate) fn record_line(alloc: Global, reading: &Reading) -> Result<Line, WordFault>
    ensures ok { IfOk result (λ line. line_from verb.Record (given_of reading.now)
        ≡ Some (line_view line)) }
    ensures err { IfErr result (Refuses (line_from verb.Record (given_of reading.now) ≡ None)) }
{
    let job = job_of(alloc, reading)?;
    let schedule = name_at(alloc, reading, "schedule")?;
    let machines = found(machines_of(reading))?;
    let seed = found(seed_of(reading))?;
    Ok(Line::RecordLine {
        job,
        schedule,
        machines,
        seed,
        lossy: flag(reading, "lossy"),
    })
}

/// A line of `replay`.
pub(crate) fn replay_line(alloc: Global, reading: &Reading) -> Result<Line, WordFault>
    ensures ok { IfOk result (λ line. line_from verb.Replay (given_of reading.now)
        ≡ Some (line_view line)) }
    ensures err { IfErr result (Refuses (line_from verb.Replay (given_of reading.now) ≡ None)) }
{
    let job = job_of(alloc, reading)?;
    let schedule = name_at(alloc, reading, "schedule")?;
    Ok(Line::ReplayLine { job, schedule })
}

/// A line of `resume`.
pub(crate) fn resume_line(alloc: Global, reading: &Reading) -> Result<Line, WordFault>
    ensures ok { IfOk result (λ line. line_from verb.Resume (given_of reading.now)
        ≡ Some (line_view line)) }
    ensures err { IfErr result (Refuses (line_from verb.Resume (given_of reading.now) ≡ None)) }
{
    let job = job_of(alloc, reading)?;
    let image = name_at(alloc, reading, "image")?;
    let machines = found(machines_of(reading))?;
    Ok(Line::ResumeLine {
        job,
        image,
        machines,
    })
}

/// A line of `show`.
pub(crate) fn show_line(alloc: Global, reading: &Reading) -> Result<Line, WordFault>
    ensures ok { IfOk result (λ line. line_from verb.Show (given_of reading.now)
        ≡ Some (line_view line)) }
    ensures err { IfErr result (Refuses (line_from verb.Show (given_of reading.now) ≡ None)) }
{
    let program = name_at(alloc, reading, "program")?;
    Ok(Line::ShowLine { program })
}

/// A line of `free`.
pub(crate) fn free_line(alloc: Global, reading: &Reading) -> Result<Line, WordFault>
    ensures ok { IfOk result (λ line. line_from verb.Free (given_of reading.now)
        ≡ Some (line_view line)) }
    ensures err { IfErr result (Refuses (line_from verb.Free (given_of reading.now) ≡ None)) }
{
    let program = name_at(alloc, reading, "program")?;
    Ok(Line::FreeLine { program })
}

/// A line of `plan`.
pub(crate) fn plan_line(alloc: Global, reading: &Reading) -> Result<Line, WordFault>
    ensures ok { IfOk result (λ line. line_from verb.Plan (given_of reading.now)
        ≡ Some (line_view line)) }
    ensures err { IfErr result (Refuses (line_from verb.Plan (given_of reading.now) ≡ None)) }
{
    let graph = name_at(alloc, reading, "graph")?;
    let form = found(graph_form_of(reading))?;
    let machines = found(machines_of(reading))?;
    Ok(Line::PlanLine {
        graph,
        form,
        machines,
    })
}

/// A line of `demo`.
pub(crate) fn demo_line(reading: &Reading) -> Result<Line, WordFault>
    ensures ok { IfOk result (λ line. line_from verb.Demo (given_of reading.now)
        ≡ Some (line_view line)) }
    ensures err { IfErr result (Refuses (line_from verb.Demo (given_of reading.now) ≡ None)) }
{
    let seed = found(seed_of(reading))?;
    let machines = found(machines_or_four(reading))?;
    Ok(Line::DemoLine { seed, machines })
}

/// A line of `renew`.
pub(crate) fn renew_line(alloc: Global, reading: &Reading) -> Result<Line, WordFault>
    ensures ok { IfOk result (λ line. line_from verb.Renew (given_of reading.now)
        ≡ Some (line_view line)) }
    ensures err { IfErr result (Refuses (line_from verb.Renew (given_of reading.now) ≡ None)) }
{
    let schedule = name_at(alloc, reading, "schedule")?;
    let target = name_at(alloc, reading, "target")?;
    Ok(Line::RenewLine { schedule, target })
}

/// A line of `split`.
pub(crate) fn split_line(alloc: Global, reading: &Reading) -> Result<Line, WordFault>
    ensures ok { IfOk result (λ line. line_from verb.Split (given_of reading.now)
        ≡ Some (line_view line)) }
    ensures err { IfErr result (Refuses (line_from verb.Split (given_of reading.now) ≡ None)) }
{
    let program = name_at(alloc, reading, "program")?;
    let graph = name_at(alloc, reading, "graph")?;
    let prefix = name_at(alloc, reading, "prefix")?;
    let form = found(graph_form_of(reading))?;
    let machines = found(machines_of(reading))?;
    let draws = found(draws_of(reading))?;
    Ok(Line::SplitLine {
        program,
        graph,
        prefix,
        form,
        machines,
        draws,
    })
}

/// A line of `worker`.
pub(crate) fn worker_line(alloc: Global, reading: &Reading) -> Result<Line, WordFault>
    ensures ok { IfOk result (λ line. line_from verb.Worker (given_of reading.now)
        ≡ Some (line_view line)) }
    ensures err { IfErr result (Refuses (line_from verb.Worker (given_of reading.now) ≡ None)) }
{
    let part = name_at(alloc, reading, "part")?;
    let rows = name_at(alloc, reading, "rows")?;
    Ok(Line::WorkerLine { part, rows })
}
