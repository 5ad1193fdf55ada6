use std::alloc::{AllocError, Global};
use std::test::Fail;
use symple_words::{GraphForm, Job, Line, read_words};

/// Words with one space between each two, and the command with its parts and the flags that stand, or the fault.
static WORDS: &str = "run bfs g1 --machines 1 --rounds => run bfs g1 rounds draws 0 machines 1
run --machines=64 bfs g1 => run bfs g1 draws 0 machines 64
run bfs --machines 00000000000000000064 g1 => run bfs g1 draws 0 machines 64
run run --machines 2 run --vertices 0 => run run run vertices 0 draws 0 machines 2
run a=b = --machines 2 --vertices=2097152 --both => run a=b = vertices 2097152 both draws 0 machines 2
run bfs g1 --machines 2 --weighted --binary --both => run bfs g1 both binary weighted draws 0 machines 2
run --log --binary --reads bfs g1 --machines 3 => run bfs g1 binary reads log draws 0 machines 3
run bfs g1 --machines 2 --draws 18446744073709551615 => run bfs g1 draws 18446744073709551615 machines 2
run bfs g1 --machines 2 --image back --draws=0 => run bfs g1 draws 0 machines 2 image back
run bfs g1 --machines 2 --image==x => run bfs g1 draws 0 machines 2 image =x
run bfs g1 --image=a=b-c --machines 2 => run bfs g1 draws 0 machines 2 image a=b-c
run bfs g1 --machines 2 --image both --both => run bfs g1 both draws 0 machines 2 image both
record bfs g1 s --machines 3 --seed 7 => record bfs g1 draws 0 schedule s machines 3 seed 7
record --lossy --seed=18446744073709551615 bfs g1 s --machines=3 --log => record bfs g1 log draws 0 schedule s machines 3 seed 18446744073709551615 lossy
record bfs g1 s --machines 3 --seed=0 --binary --draws 9 => record bfs g1 binary draws 9 schedule s machines 3 seed 0
replay bfs g1 s => replay bfs g1 draws 0 schedule s
replay bfs g1 --vertices=007 --reads s --draws 12 => replay bfs g1 vertices 7 reads draws 12 schedule s
replay --rounds bfs g1 s --both --vertices 4 => replay bfs g1 vertices 4 both rounds draws 0 schedule s
resume bfs g1 back --machines 2 => resume bfs g1 draws 0 image back machines 2
resume bfs g1 back --log --machines=2 --rounds --weighted --binary --draws 3 => resume bfs g1 binary weighted rounds log draws 3 image back machines 2
split bfs g1 part --machines 2 => split bfs g1 part machines 2 draws 0
split bfs --draws=5 g1 part --both --machines 2 --vertices 9 => split bfs g1 part vertices 9 both machines 2 draws 5
split --binary bfs g1 part --weighted --machines 2 => split bfs g1 part binary weighted machines 2 draws 0
show k => show k
show show => show show
show é => show é
free k => free k
plan g1 --machines 2 => plan g1 machines 2
plan --vertices=0010 a.txt --machines 4 --both => plan a.txt vertices 10 both machines 4
plan g1 --binary --weighted --machines=1 => plan g1 binary weighted machines 1
demo 1 => demo 1 machines 4
demo 18446744073709551615 --machines 64 => demo 18446744073709551615 machines 64
demo --machines=01 0 => demo 0 machines 1
demo 00000000000000000007 => demo 7 machines 4
renew old new => renew old new
renew a- b--c => renew a- b--c
worker part.0 rows.0 => worker part.0 rows.0
 => Command
fly => Command
Run => Command
ru => Command
runs => Command
run= => Command
help => Command
-h => Command
--help => Command
--version => Command
--run => Command
--machines 1 run bfs g1 => Command
 run bfs g1 --machines 1 => Command
run => Words
run bfs g1 => Words
run bfs --machines 1 => Words
run bfs g1 g2 --machines 1 => Words
run  g1 --machines 1 => Words
run bfs  --machines 1 => Words
run bfs g1 --machines 1  => Words
run -bfs g1 --machines 1 => Words
run bfs - --machines 1 => Words
run bfs g1 --machines 65 => Words
run bfs g1 --machines 0 => Words
run bfs g1 --machines => Words
run bfs g1 --machines= => Words
run bfs g1 --machines  => Words
run bfs g1 --machines=-1 => Words
run bfs g1 --machines -1 => Words
run bfs g1 --machines +1 => Words
run bfs g1 --machines 1.0 => Words
run bfs g1 --machines 0x1 => Words
run bfs g1 --machines one => Words
run bfs g1 --machines ١ => Words
run bfs g1 --machines 000000000000000000001 => Words
run bfs g1 --machines 1 --machines 1 => Words
run bfs g1 --machines=1 --machines=2 => Words
run bfs g1 --machines 1 --machines=1 => Words
run bfs g1 --machines --both 1 => Words
run bfs g1 --machine 1 => Words
run bfs g1 --Machines 1 => Words
run bfs g1 -machines 1 => Words
run bfs g1 ---machines 1 => Words
run bfs g1 --machines 1 -- => Words
run -- bfs g1 --machines 1 => Words
run bfs g1 --machines 1 -h => Words
run bfs g1 --machines 1 --help => Words
run bfs g1 --machines 1 --version => Words
run bfs g1 --machines 1 --both --both => Words
run bfs g1 --machines 1 --both= => Words
run bfs g1 --machines 1 --both=true => Words
run bfs g1 --machines 1 --bot => Words
run bfs g1 --machines 1 --=x => Words
run bfs g1 --machines 1 --vertices 2097153 => Words
run bfs g1 --machines 1 --vertices 18446744073709551616 => Words
run bfs g1 --machines 1 --vertices 3 --binary => Words
run bfs g1 --machines 1 --weighted => Words
run bfs g1 --machines 1 --weighted --binary --vertices 0 => Words
run bfs g1 --machines 1 --draws 18446744073709551616 => Words
run bfs g1 --machines 1 --draws 99999999999999999999 => Words
run bfs g1 --machines 1 --draws= => Words
run bfs g1 --machines 1 --image= => Words
run bfs g1 --machines 1 --image  => Words
run bfs g1 --machines 1 --image=-x => Words
run bfs g1 --machines 1 --image -x => Words
run bfs g1 --machines 1 --image => Words
run bfs g1 --machines 1 --image a --image b => Words
run bfs g1 --machines 1 --program bfs => Words
run bfs g1 --machines 1 --seed 1 => Words
run bfs g1 --machines 1 --lossy => Words
record bfs g1 s --machines 1 => Words
record bfs g1 s --seed 1 => Words
record bfs g1 --machines 1 --seed 1 => Words
record bfs g1 s --machines 1 --seed 18446744073709551616 => Words
record bfs g1 s --machines 1 --seed 1 --lossy=1 => Words
record bfs g1 s --machines 1 --seed 1 --lossy --lossy => Words
record bfs g1 s --machines 1 --seed 1 --image x => Words
replay bfs g1 => Words
replay bfs g1 s --machines 1 => Words
replay bfs g1 s --seed 1 => Words
replay bfs g1 s t => Words
resume bfs g1 back => Words
resume bfs g1 --machines 1 => Words
resume bfs g1 --machines 1 --image back => Words
resume bfs g1 back --machines 1 --lossy => Words
show => Words
show  => Words
show k k => Words
show k --machines 1 => Words
show --program k => Words
free => Words
free -k => Words
free k --both => Words
plan g1 => Words
plan --machines 1 => Words
plan g1 g2 --machines 1 => Words
plan g1 --machines 1 --draws 1 => Words
plan g1 --machines 1 --rounds => Words
plan g1 --machines 1 --weighted => Words
demo => Words
demo x => Words
demo 18446744073709551616 => Words
demo 000000000000000000001 => Words
demo -1 => Words
demo 1 2 => Words
demo --seed 1 => Words
demo 1 --machines 0 => Words
demo 1 --machines 65 => Words
demo 1 --vertices 3 => Words
renew a => Words
renew a b c => Words
renew a -b => Words
renew a b --log => Words
split bfs g1 part => Words
split bfs g1 --machines 2 => Words
split bfs g1 part --machines 2 --rounds => Words
split bfs g1 part --machines 2 --image x => Words
worker part => Words
worker part  => Words
worker part rows more => Words
worker part rows --machines 1 => Words
worker part --rows => Words";

/// Writes the names of the flags that stand.
fn put_flags(out: &mut String, flags: &[(bool, &str)]) -> Result<(), AllocError> {
    for &(stands, name) in flags {
        if stands {
            write!(out, " {name}")?;
        }
    }
    Ok(())
}

fn put_form(out: &mut String, form: &GraphForm) -> Result<(), AllocError> {
    if let Some(vertices) = form.vertices {
        write!(out, " vertices {vertices}")?;
    }
    let form = *form;
    put_flags(
        out,
        &[
            (form.both, "both"),
            (form.binary, "binary"),
            (form.weighted, "weighted"),
        ],
    )
}

fn put_job(out: &mut String, job: &Job) -> Result<(), AllocError> {
    write!(out, "{} {}", job.program, job.graph)?;
    put_form(out, &job.form)?;
    let lines = job.lines;
    put_flags(
        out,
        &[
            (lines.rounds, "rounds"),
            (lines.reads, "reads"),
            (lines.log, "log"),
        ],
    )?;
    write!(out, " draws {}", job.draws)
}

/// Writes the line of a command that has a job.
fn put_run(out: &mut String, line: &Line) -> Result<(), AllocError> {
    match line {
        Line::RunLine {
            job,
            machines,
            image,
        } => {
            out.push_str("run ")?;
            put_job(out, job)?;
            write!(out, " machines {machines}")?;
            match image {
                Some(image) => write!(out, " image {image}"),
                None => Ok(()),
            }
        }
        Line::RecordLine {
            job,
            schedule,
            machines,
            seed,
            lossy,
        } => {
            out.push_str("record ")?;
            put_job(out, job)?;
            write!(out, " schedule {schedule} machines {machines} seed {seed}")?;
            put_flags(out, &[(*lossy, "lossy")])
        }
        Line::ReplayLine { job, schedule } => {
            out.push_str("replay ")?;
            put_job(out, job)?;
            write!(out, " schedule {schedule}")
        }
        Line::ResumeLine {
            job,
            image,
            machines,
        } => {
            out.push_str("resume ")?;
            put_job(out, job)?;
            write!(out, " image {image} machines {machines}")
        }
        _ => Ok(()),
    }
}

/// Writes the line of a command that has no job.
fn put_other(out: &mut String, line: &Line) -> Result<(), AllocError> {
    match line {
        Line::ShowLine { program } => write!(out, "show {program}"),
        Line::FreeLine { program } => write!(out, "free {program}"),
        Line::DemoLine { seed, machines } => write!(out, "demo {seed} machines {machines}"),
        Line::RenewLine { schedule, target } => write!(out, "renew {schedule} {target}"),
        Line::WorkerLine { part, rows } => write!(out, "worker {part} {rows}"),
        Line::PlanLine {
            graph,
            form,
            machines,
        } => {
            write!(out, "plan {graph}")?;
            put_form(out, form)?;
            write!(out, " machines {machines}")
        }
        Line::SplitLine {
            program,
            graph,
            prefix,
            form,
            machines,
            draws,
        } => {
            write!(out, "split {program} {graph} {prefix}")?;
            put_form(out, form)?;
            write!(out, " machines {machines} draws {draws}")
        }
        _ => Ok(()),
    }
}

fn words(alloc: Global, text: &str) -> Result<Vec<String>, AllocError> {
    let mut words = Vec::new(alloc);
    for word in text.split(' ') {
        words.push(String::from_str(alloc, word)?)?;
    }
    Ok(words)
}

fn told(alloc: Global, words: &[String]) -> Result<String, AllocError> {
    match read_words(alloc, words) {
        Ok(line) => {
            let mut out = String::new(alloc);
            put_run(&mut out, &line)?;
            put_other(&mut out, &line)?;
            Ok(out)
        }
        Err(fault) => format!(in alloc; "{fault:?}"),
    }
}

#[test]
fn command_lines(rt: HostRuntime) -> Result<(), Fail> {
    let alloc = rt.alloc();
    for row in WORDS.lines() {
        let (text, wanted) = row.split_once(" => ").ok_or("no answer")?;
        let words = words(alloc, text)?;
        assert_eq!(rt; told(alloc, &words)?.as_str(), wanted, "{row}");
    }
    assert_eq!(rt; told(alloc, &[])?.as_str(), "Command");
    Ok(())
}
