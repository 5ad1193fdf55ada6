//! SympleGraph: runs vertex programs whose neighbour loops stop early.
#![tactic(auto)]

mod arguments;

use arguments::words_of;
use command_steps::{Failure, Status, write_note};
use machine_core::Core;
use std::io::BufWriter;
use std::process::ExitCode;
use symple_run::{FileShelf, InSource, OutSink, symple};

/// The most bytes that are held back before they go to standard output.
const BUFFER: usize = 65_536;

fn main(rt: HostRuntime) -> ExitCode {
    let alloc = rt.alloc();
    let mut notes = OutSink::new(rt.stderr());
    let words = words_of(&rt, alloc);
    let most = match &words {
        Ok(words) => held_back(words),
        Err(_) => 0,
    };
    let writer = BufWriter::with_capacity(alloc, most, rt.stdout());
    let (Ok(words), Ok(writer)) = (words, writer) else {
        let _ = write_note(&Failure::Memory, &mut notes);
        return ExitCode::from(Status::Memory.number());
    };
    let mut shelf = FileShelf::new(&rt);
    let mut input = InSource::new(rt.stdin());
    let mut out = OutSink::new(writer);
    let status = symple::<Core, _, _, _, _>(
        alloc, &words, &mut shelf, &mut input, &mut out, &mut notes,
    );
    ExitCode::from(status.number())
}

/// The most bytes that a command holds back: of a worker none, for others wait for its messages.
fn held_back(words: &[String]) -> usize {
    match words.first() {
        Some(word) if word.as_str() == "worker" => 0,
        _ => BUFFER,
    }
}
