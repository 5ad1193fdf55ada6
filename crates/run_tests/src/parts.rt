//! Parts as files: what is read is what was written.
ghost use Rattle.program_reader.specs.Accepted.{Says};

use crate::cases::{Case, case_of, edges_of, typed_of};
use crate::machines::parts_of;
use crate::runs::CASES;
use instrument::split_of;
use std::alloc::{AllocError, Global};
use std::process::Abort;
use std::test::Fail;
use symple_face::Part;
use worker_stream::{read_part, write_part};

/// What a part holds of the graph.
fn told(alloc: Global, part: &Part) -> Result<String, AllocError> {
    let mut text = format!(in alloc; "{:?} {:?} {}", part.at, part.cuts, part.edges)?;
    text.push_str(&format!(in alloc; " {} {:?} {:?}", part.draws, part.scan, part.push)?)?;
    text.push_str(&format!(in alloc; " {:?} {:?}", part.degrees, part.refresh_to)?)?;
    text.push_str(&format!(in alloc; " {:?} {:?}", part.refresh_of, part.push_to)?)?;
    text.push_str(&format!(in alloc; " {:?}", part.push_of)?)?;
    Ok(text)
}

/// A part with the program of a text is read again.
fn check_part(rt: &impl Abort, alloc: Global, part: &Part, program: &[u8]) -> Result<(), Fail>
    requires { Says program.now part.now.split.value.program.program }
{
    let bytes = write_part(alloc, part, program)?;
    let read = read_part(alloc, &bytes)?;
    assert_eq!(rt; told(alloc, &read)?.as_str(), told(alloc, part)?.as_str());
    Ok(())
}

fn check_case(rt: &impl Abort, alloc: Global, case: &Case, machines: u8) -> Result<(), Fail> {
    if machines < 1 || machines > 64 {
        return Err(Fail::from("not so many machines"));
    }
    let split = split_of(typed_of(alloc, case)?);
    let parts = parts_of(alloc, split, edges_of(alloc, case)?, machines)?;
    'parts: for part in &parts {
        check_part(rt, alloc, part, case.program.as_bytes())?;
    }
    Ok(())
}

#[test]
fn parts_that_are_read(rt: HostRuntime) -> Result<(), Fail> {
    let alloc = rt.alloc();
    for line in CASES.lines() {
        let case = case_of(alloc, line)?;
        for machines in [2, 4] {
            check_case(&rt, alloc, &case, machines)?;
        }
    }
    Ok(())
}
