ghost use Rattle.std.specs.Prelude.{◌<◌};

use crate::{demos, documents, links, rows, shows, texts};
use command_steps::Status;
use demo_program::demo_program;
use machine_core::Core;
use outside::{DripSink, FirmSink, MemShelf, MemSink, MemSource, Shelf};
use program_reader::read_program;
use sample_programs::{DIAMOND, edited, graph_named, program_named};
use std::alloc::{AllocError, Global};
use std::process::Abort;
use std::test::Fail;
use symple_run::symple;
use vert_tree::print_program;

/// The words of a line, which spaces part.
fn words(alloc: Global, line: &str) -> Result<Vec<String>, AllocError> {
    let mut words = Vec::new(alloc);
    for word in line.split_ascii_whitespace() {
        words.push(String::from_str(alloc, word)?)?;
    }
    Ok(words)
}

/// The text of that name, which stands behind `$`, the name and a line end.
fn text_of(texts: &'static str, name: &str) -> &'static str {
    for text in texts.split('$') {
        if let Some((title, body)) = text.split_once('\n') {
            if title.trim_ascii_start() == name {
                return body;
            }
        }
    }
    "no such text"
}

/// What a digit of base 16 stands for.
fn sixteenth(digit: u8) -> u8
    ensures { result < 16 }
{
    match digit {
        b'0'..=b'9' => digit - b'0',
        b'a'..=b'f' => digit - b'a' + 10,
        _ => 0,
    }
}

/// The bytes of a text, or those that it gives in base 16 behind the word `hex`.
fn bytes_of(alloc: Global, text: &str) -> Result<Vec<u8>, AllocError> {
    let Some(digits) = text.strip_prefix("hex ") else {
        return Vec::from_slice(alloc, text.as_bytes());
    };
    let mut bytes = Vec::new(alloc);
    for pair in digits.split(' ') {
        if let [high, low] = pair.as_bytes() {
            bytes.push(sixteenth(*high) * 16 + sixteenth(*low))?;
        }
    }
    Ok(bytes)
}

/// A sample, a sample with one change, or a text of these tests.
fn program(alloc: Global, name: &str) -> Result<String, AllocError> {
    if let Some(text) = program_named(name) {
        return String::from_str(alloc, text);
    }
    for line in texts::EDITS.lines() {
        let mut parts = line.split(" | ");
        if parts.next() == Some(name) {
            let base = program_named(parts.next().unwrap_or("")).unwrap_or("");
            let (old, new) = (parts.next().unwrap_or(""), parts.next().unwrap_or(""));
            return edited(alloc, base, old, new);
        }
    }
    String::from_str(alloc, text_of(texts::PROGRAMS, name))
}

fn graph(alloc: Global, name: &str) -> Result<Vec<u8>, AllocError> {
    match graph_named(name) {
        Some(text) => Vec::from_slice(alloc, text.as_bytes()),
        None => bytes_of(alloc, text_of(texts::GRAPHS, name)),
    }
}

/// A shelf with a program under `p` whose call 1 stores a graph under `g`, and that fails at these calls.
fn shelf(
    rt: &impl Abort,
    alloc: Global,
    text: &str,
    graph: &[u8],
    fails: Vec<u64>,
) -> Result<MemShelf, Fail> {
    let bytes = Vec::from_slice(alloc, text.as_bytes())?;
    let file = (String::from_str(alloc, "p")?, bytes);
    let mut shelf = MemShelf::new(alloc, vec![in alloc; file]?, fails);
    assert_eq!(rt; shelf.store("g", graph), Ok(()));
    Ok(shelf)
}

/// What a line came to: its status, what it printed and what it noted.
#[derive(Drop)]
struct Outcome {
    status: Status,
    printed: MemSink,
    noted: MemSink,
}

/// Performs a line over sinks that fail at these puts.
fn performed(
    alloc: Global,
    line: &str,
    shelf: &mut MemShelf,
    fails: Vec<u64>,
    note_fails: Vec<u64>,
) -> Result<Outcome, Fail> {
    let words = words(alloc, line)?;
    let mut input = MemSource::new(Vec::new(alloc), Vec::new(alloc));
    let mut printed = MemSink::new(alloc, 40_000, fails)?;
    let mut noted = MemSink::new(alloc, 4000, note_fails)?;
    let status = symple::<Core, _, _, _, _>(
        alloc,
        &words,
        shelf,
        &mut input,
        &mut printed,
        &mut noted,
    );
    Ok(Outcome {
        status,
        printed,
        noted,
    })
}

/// Performs a line where nothing fails but these calls of the shelf, and compares what comes of it.
fn check(
    rt: &impl Abort,
    alloc: Global,
    line: &str,
    shelf: &mut MemShelf,
    wanted: (&str, &str),
) -> Result<(), Fail> {
    let outcome = performed(alloc, line, shelf, Vec::new(alloc), Vec::new(alloc))?;
    let told = format!(in alloc; "{:?}", outcome.status)?;
    let (status, text) = wanted;
    assert_eq!(rt; told.as_str(), status, "{line}");
    let (printed, noted) = match outcome.status {
        Status::Done => (text, ""),
        _ => ("", text),
    };
    assert_eq!(rt; outcome.printed.bytes(), printed.as_bytes(), "{line}");
    assert_eq!(rt; outcome.noted.bytes(), noted.as_bytes(), "{line}");
    Ok(())
}

/// A row: the words, then a line with the program, the graph, the status and maybe the call of the shelf
/// that fails, then what is printed or noted.
fn check_row(rt: &impl Abort, alloc: Global, line: &str, row: &str) -> Result<(), Fail> {
    let (files, text) = row.split_once('\n').unwrap_or((row, ""));
    let mut names = files.split(' ');
    let program = program(alloc, names.next().unwrap_or(""))?;
    let graph = graph(alloc, names.next().unwrap_or(""))?;
    let status = names.next().unwrap_or("");
    let mut fails = Vec::new(alloc);
    if let Some(call) = names.next() {
        fails.push(call.parse::<u64>().unwrap_or(0))?;
    }
    let mut shelf = shelf(rt, alloc, &program, &graph, fails)?;
    check(rt, alloc, line, &mut shelf, (status, text))
}

fn check_rows(rt: &impl Abort, alloc: Global, rows: &str) -> Result<(), Fail> {
    for row in rows.split('$') {
        if let Some((line, others)) = row.split_once('\n') {
            check_row(rt, alloc, line, others)?;
        }
    }
    Ok(())
}

/// What `free` prints of programs whose loops have these bodies, which stand between two texts.
fn check_bodies(rt: &impl Abort, alloc: Global) -> Result<(), Fail> {
    let (before, others) = shows::BODIES.split_once('\n').unwrap_or(("", ""));
    let (after, bodies) = others.split_once('\n').unwrap_or(("", ""));
    for row in bodies.lines() {
        let (wanted, body) = row.split_once(" | ").unwrap_or((row, ""));
        let text = format!(in alloc; "{before}{body}{after}")?;
        let line = format!(in alloc; "{wanted}\n")?;
        let mut shelf = shelf(rt, alloc, &text, b"", Vec::new(alloc))?;
        check(rt, alloc, "free p", &mut shelf, ("Done", &line))?;
    }
    Ok(())
}

/// Whether a graph that is cut behind these bytes is still one.
fn is_whole(binary: bool, size: usize) -> bool {
    if binary {
        size % 8 == 0
    } else {
        size % 4 == 0 || size % 4 == 3
    }
}

/// A graph's first bytes: a text is cut within a line where it has one number alone, or no second one,
/// and pairs of ids anywhere but behind a pair.
fn check_cuts(rt: &impl Abort, alloc: Global, line: &str, name: &str) -> Result<(), Fail> {
    let text = program(alloc, "bfs")?;
    let graph = graph(alloc, name)?;
    let binary = name == "units";
    for size in 0..graph.len() + 1 {
        let mut shelf = shelf(rt, alloc, &text, &graph[..size], Vec::new(alloc))?;
        if is_whole(binary, size) {
            let outcome = performed(alloc, line, &mut shelf, Vec::new(alloc), Vec::new(alloc))?;
            assert_eq!(rt; outcome.status, Status::Done);
        } else {
            let note = if binary {
                format!(in alloc; "symple: graph: E6 at byte {}\n", size / 8 * 8)?
            } else {
                format!(in alloc; "symple: graph: E1 at line {}\n", size / 4 + 1)?
            };
            check(rt, alloc, line, &mut shelf, ("BadGraph", &note))?;
        }
    }
    Ok(())
}

#[test]
fn rows_of_words(rt: HostRuntime) -> Result<(), Fail> {
    let alloc = rt.alloc();
    let tables = [
        rows::RUNS,
        rows::READS,
        rows::PLANS,
        shows::SHOWS,
        shows::FREES,
        rows::REFUSALS,
        rows::FAILURES,
    ];
    for table in tables {
        check_rows(&rt, alloc, table)?;
    }
    check_bodies(&rt, alloc)?;
    check_cuts(&rt, alloc, "run p g --machines 1", "diamond")?;
    check_cuts(&rt, alloc, "run p g --machines 1 --binary", "units")
}

/// The commands that README and the guide print, each over the files that those before it left.
#[test]
fn documents_are_true(rt: HostRuntime) -> Result<(), Fail> {
    let alloc = rt.alloc();
    let mut shelf = shelf(&rt, alloc, "", b"", Vec::new(alloc))?;
    for text in documents::FILES.split('$') {
        if let Some((name, body)) = text.split_once('\n') {
            let stored = shelf.store(name.trim_ascii_start(), body.as_bytes());
            assert_eq!(rt; stored, Ok(()));
        }
    }
    for row in documents::COMMANDS.split('$') {
        if let Some((line, others)) = row.split_once('\n') {
            let (status, text) = others.split_once('\n').unwrap_or((others, ""));
            check(&rt, alloc, line, &mut shelf, (status, text))?;
        }
    }
    Ok(())
}

#[test]
fn demonstrations(rt: HostRuntime) -> Result<(), Fail> {
    check_rows(&rt, rt.alloc(), demos::DEMOS)
}

/// The demonstration runs the example of breadth-first search.
#[test]
fn demonstrated_program(rt: HostRuntime) -> Result<(), Fail> {
    let alloc = rt.alloc();
    let example = text_of(documents::FILES, "examples/bfs.vp");
    let (Ok(wanted), Ok(typed)) = (read_program(alloc, example.as_bytes()), demo_program(alloc))
    else {
        return Err(Fail::from("no program"));
    };
    let wanted = print_program(alloc, &wanted.program);
    let told = print_program(alloc, &typed.program);
    let (Ok(wanted), Ok(told)) = (wanted, told) else {
        return Err(Fail::from("no text"));
    };
    assert_eq!(rt; told.as_str(), wanted.as_str());
    Ok(())
}

/// A sink that fails at one put leaves a first part, at each put until the run ends well; one that takes
/// single bytes leaves the whole.
fn check_puts(rt: &impl Abort, alloc: Global, line: &str) -> Result<(), Fail> {
    let text = program(alloc, "bfs")?;
    let mut shelf = shelf(rt, alloc, &text, DIAMOND.as_bytes(), Vec::new(alloc))?;
    let words = words(alloc, line)?;
    let mut input = MemSource::new(Vec::new(alloc), Vec::new(alloc));
    let mut whole = DripSink::new(alloc, 4000)?;
    let mut notes = FirmSink::new(alloc, 100)?;
    let status = symple::<Core, _, _, _, _>(
        alloc, &words, &mut shelf, &mut input, &mut whole, &mut notes,
    );
    assert_eq!(rt; status, Status::Done);
    for put in 1..1000 {
        let fails = vec![in alloc; put]?;
        let outcome = performed(alloc, line, &mut shelf, fails, Vec::new(alloc))?;
        if outcome.status == Status::Done {
            assert_eq!(rt; outcome.printed.bytes(), whole.bytes());
            return Ok(());
        }
        assert_eq!(rt; outcome.status, Status::WriteFault);
        assert!(rt; whole.bytes().starts_with(outcome.printed.bytes()));
        assert_eq!(rt; outcome.noted.bytes(), b"symple: cannot write\n".as_slice());
    }
    assert!(rt; false, "{line}");
    Ok(())
}

/// A note that fails leaves the status as it is.
fn check_note(rt: &impl Abort, alloc: Global) -> Result<(), Fail> {
    let mut shelf = shelf(rt, alloc, "", b"", Vec::new(alloc))?;
    let outcome = performed(
        alloc,
        "fly",
        &mut shelf,
        Vec::new(alloc),
        vec![in alloc; 1]?,
    )?;
    assert_eq!(rt; outcome.status, Status::Usage);
    assert_eq!(rt; outcome.noted.bytes().len(), 0);
    Ok(())
}

#[test]
fn puts_that_fail(rt: HostRuntime) -> Result<(), Fail> {
    for line in rows::FAILING.lines() {
        check_puts(&rt, rt.alloc(), line)?;
    }
    check_note(&rt, rt.alloc())
}

/// What a line prints but for the lines of events, behind how many goes and takes they are.
fn told_beside(alloc: Global, printed: &str) -> Result<String, AllocError> {
    let (mut goes, mut takes) = (0u32, 0u32);
    let mut others = String::new(alloc);
    for line in printed.lines() {
        if line.starts_with("go ") {
            goes = goes.saturating_add(1);
        } else if line.starts_with("take ") {
            takes = takes.saturating_add(1);
        } else {
            others.push_str(line)?;
            others.push_str("\n")?;
        }
    }
    format!(in alloc; "{goes} {takes}\n{others}")
}

/// A row of a run with `--log`.
fn check_log(rt: &impl Abort, alloc: Global, line: &str, row: &str) -> Result<(), Fail> {
    let (files, text) = row.split_once('\n').unwrap_or((row, ""));
    let (among, rest) = text.split_once("=\n").unwrap_or((text, ""));
    let (program_name, behind) = files.split_once(' ').unwrap_or((files, ""));
    let (graph_name, counts) = behind.split_once(' ').unwrap_or((behind, ""));
    let program = program(alloc, program_name)?;
    let graph = graph(alloc, graph_name)?;
    let mut shelf = shelf(rt, alloc, &program, &graph, Vec::new(alloc))?;
    let outcome = performed(alloc, line, &mut shelf, Vec::new(alloc), Vec::new(alloc))?;
    assert_eq!(rt; outcome.status, Status::Done);
    let printed = std::str::from_utf8(outcome.printed.bytes()).unwrap_or("");
    let told = told_beside(alloc, printed)?;
    let wanted = format!(in alloc; "{counts}\n{rest}")?;
    assert_eq!(rt; told.as_str(), wanted.as_str(), "{line}");
    for event in among.lines() {
        match event.strip_prefix("!") {
            Some(absent) => assert!(rt; !printed.contains(absent), "{line}: {event}"),
            None => assert!(rt; printed.contains(event), "{line}: {event}"),
        }
    }
    Ok(())
}

#[test]
fn logs_of_events(rt: HostRuntime) -> Result<(), Fail> {
    let alloc = rt.alloc();
    for row in rows::LOGS.split('$') {
        if let Some((line, others)) = row.split_once('\n') {
            check_log(&rt, alloc, line, others)?;
        }
    }
    Ok(())
}

/// A shelf with a program whose limit is 0, its graph, and a schedule.
fn scheduled(rt: &impl Abort, alloc: Global, schedule: &str) -> Result<MemShelf, Fail> {
    let text = program(alloc, "first0")?;
    let mut shelf = shelf(rt, alloc, &text, DIAMOND.as_bytes(), Vec::new(alloc))?;
    assert_eq!(rt; shelf.store("s", schedule.as_bytes()), Ok(()));
    Ok(shelf)
}

/// What `record --lossy` stored is of form 3, and is replayed to the same bytes.
fn check_lossy(rt: &impl Abort, alloc: Global, line: &str, table: &str) -> Result<(), Fail> {
    let mut shelf = scheduled(rt, alloc, "")?;
    check(rt, alloc, line, &mut shelf, ("Done", table))?;
    let stored = shelf.load(alloc, "s", 100_000);
    assert!(rt; matches!(&stored, Ok(text) if text.starts_with(b"schedule 3 machines ")));
    check(rt, alloc, "replay p g s", &mut shelf, ("Done", table))
}

/// A take over links has its message's bytes exactly where it accepts, and what befalls the links alone has its
/// schedule line.
fn check_linked_log(rt: &impl Abort, alloc: Global) -> Result<(), Fail> {
    let mut shelf = scheduled(rt, alloc, links::LOGGED)?;
    let line = "replay p g s --log";
    let outcome = performed(alloc, line, &mut shelf, Vec::new(alloc), Vec::new(alloc))?;
    assert_eq!(rt; outcome.status, Status::Done);
    let printed = std::str::from_utf8(outcome.printed.bytes()).unwrap_or("");
    let events = links::LOGGED.lines().skip(1);
    for (event, told) in events.zip(printed.lines()) {
        assert!(rt; told.starts_with(event), "{event}");
    }
    assert!(rt; printed.contains("again tally 0 1 0\ntake tally 0 1 0 "));
    assert!(rt; printed.contains("\ntake tally 0 1 0\nack tally 0 1 0\ndrop tally 0 1 0\ngo 0\n"));
    assert!(rt; printed.contains("again verdict 1 0 1\ntake verdict 1 0 1 "));
    assert!(rt; printed.ends_with(links::TABLE));
    Ok(())
}

#[test]
fn links_that_lose(rt: HostRuntime) -> Result<(), Fail> {
    let alloc = rt.alloc();
    for row in links::ROWS.split('$') {
        if let Some((schedule, others)) = row.split_once('=') {
            let (status, text) = others.split_once('\n').unwrap_or((others, ""));
            let mut shelf = scheduled(&rt, alloc, schedule)?;
            check(&rt, alloc, "replay p g s", &mut shelf, (status, text))?;
        }
    }
    check_linked_log(&rt, alloc)?;
    let lossy = "record p g s --machines 2 --seed 7 --lossy";
    check_lossy(&rt, alloc, lossy, links::TABLE)?;
    let many = "record p g s --machines 16 --seed 3 --lossy";
    check_lossy(&rt, alloc, many, links::TABLE)
}
