//! Cases of commands, a line each, over files and streams in memory: each is played, and its line
//! comes out with `as stated` behind it, or with what was otherwise.
#![tactic(auto)]

mod cuts;
mod failing;
mod files;
mod images;
mod lies;
mod pieces;
mod play;
mod scene;
mod schedules;
mod torn;
mod workers;

use play::Otherwise;
use sample_programs::Cells;
use std::alloc::Global;
use std::io::{self, BufRead, BufReader};

/// Plays a case. Its first cell says of which kind it is.
fn played(alloc: Global, line: &str) -> Result<(), Otherwise> {
    let mut cells = Cells::new(line);
    match cells.text() {
        "recorded" => schedules::recorded(alloc, &mut cells),
        "lossy" => schedules::lossy(alloc, &mut cells),
        "cut" => cuts::cut(alloc, &mut cells),
        "lossy-cut" => cuts::lossy_cut(alloc, &mut cells),
        "stopped" => images::stopped(alloc, &mut cells),
        "torn" => torn::torn(alloc, &mut cells),
        "alone" => workers::machines_alone(alloc, &mut cells),
        "shelf" => failing::shelf_fails(alloc, &mut cells),
        "puts" => failing::puts_fail(alloc, &mut cells),
        "notes" => failing::notes_fail(alloc, &mut cells),
        "takes" => failing::takes_fail(alloc, &mut cells),
        "lying" => lies::lying(alloc, &mut cells),
        _ => Err(Otherwise::Told("no such kind of case")),
    }
}

fn main(rt: HostRuntime) -> io::Result<()> {
    let alloc = rt.alloc();
    for line in BufReader::new(alloc, rt.reader())?.lines(alloc) {
        let line = line?;
        match played(alloc, &line) {
            Ok(()) => println!(rt; "{line}: as stated")?,
            Err(otherwise) => println!(rt; "{line}: {otherwise}")?,
        }
    }
    Ok(())
}
