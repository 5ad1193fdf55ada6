//! Changed texts of each kind, a line of cases each: the answer to every one is held against what
//! the definitions say. The line comes out with `as stated` behind it, or with what was otherwise.
#![tactic(auto)]

mod bytes;
mod edge_judge;
mod graphs;
mod image_judge;
mod images;
mod kind;
mod line_judge;
mod messages;
mod mutator;
mod part_judge;
mod parts;
mod programs;
mod schedules;
mod stream_judge;
mod token_judge;

use kind::{Otherwise, play};
use sample_programs::Cells;
use std::alloc::Global;
use std::io::{self, BufRead, BufReader};

/// Plays the cases of a line: so many of a kind, by a seed.
fn played(alloc: Global, line: &str) -> Result<(), Otherwise> {
    let mut cells = Cells::new(line);
    let kind = cells.text();
    let (Ok(cases), Ok(seed)) = (cells.number(), cells.number()) else {
        return Err(Otherwise::Told("no such numbers"));
    };
    match kind {
        "programs" => play(alloc, &programs::Programs, cases, seed),
        "graphs as text" => play(alloc, &graphs::Texts, cases, seed),
        "graphs as pairs" => play(alloc, &graphs::Pairs::new(alloc, false)?, cases, seed),
        "pairs with weights" => play(alloc, &graphs::Pairs::new(alloc, true)?, cases, seed),
        "schedules of form 1" => play(alloc, &schedules::FirstForm, cases, seed),
        "schedules of form 2" => play(alloc, &schedules::SecondForm, cases, seed),
        "schedules of form 3" => play(alloc, &schedules::ThirdForm, cases, seed),
        "part files" => play(alloc, &parts::Parts::new(alloc)?, cases, seed),
        "images" => play(alloc, &images::Images::new(alloc, false)?, cases, seed),
        "images sealed anew" => play(alloc, &images::Images::new(alloc, true)?, cases, seed),
        "messages" => play(alloc, &messages::Messages::new(alloc)?, cases, seed),
        _ => Err(Otherwise::Told("no such kind")),
    }
}

fn main(rt: HostRuntime) -> io::Result<()> {
    let alloc = rt.alloc();
    for line in BufReader::new(alloc, rt.reader())?.lines(alloc) {
        let line = line?;
        match played(alloc, &line) {
            Ok(()) => println!(rt; "{line}: as stated")?,
            Err(otherwise) => println!(rt; "{line}: {otherwise}")?,
        }
    }
    Ok(())
}
