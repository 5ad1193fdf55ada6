//! Part files: the part that is read, or the first fault.

use sample_programs::{Cells, program_named};
use std::alloc::{AllocError, Global};
use std::process::Abort;
use std::test::Fail;
use symple_face::Part;
use worker_stream::{PartFault, read_part, write_part};

/// The pieces of the part file of machine 1 of 2, in the diamond of four edges. The text stands behind the ends.
static PIECES: &str = "\
magic | 53475031
machine | 01
machines | 02
draws | 0700000000000000
vertices | 04000000
edges | 04000000
ends | 02000000 04000000
text |
scan | 01000000 02000000 03000000 01000000
push | 03000000 00000000 02000000 01000000 01000000 03000000 01000000 02000000 03000000 01000000
degrees | 02000000 02000000 01000000 01000000 03000000 02000000 00000000";

/// The number of the fault, or 0, and the pieces that stand in the place of others.
static CASES: &str = "\
0
0 | draws | ffffffffffffffff
0 | edges | 03000000
0 | edges | 00008000
1 | magic | 53475032
1 | magic | 53475030
1 | magic | 73475031
1 | magic | 54475031
1 | magic | 53485031
1 | magic | 53475131
1 | magic |
1 | magic | 00000000
2 | magic | 5347503153475031 | machine | | machines | | draws |
2 | machines | 00
2 | machines | 01
2 | machines | 03
2 | machines | 41
2 | machines | ff
2 | machine |
2 | ends | 02000000
2 | ends | 02000000 04000000 04000000
2 | text | ffffffff
2 | text | 00000001
2 | scan | 00000000 02000000 03000000 01000000
2 | scan | 02000000 02000000 03000000 01000000
2 | degrees | 03000000 02000000 01000000 01000000 03000000 02000000 00000000
2 | degrees | 01000000 02000000 01000000 01000000 03000000 02000000 00000000
2 | degrees | ffffffff
2 | degrees |
2 | degrees | 0200
3 | machine | 00
3 | machine | 02
3 | machine | 03
3 | machine | ff
3 | machines | 00 | ends |
3 | vertices | 00000000
3 | vertices | 03000000
3 | vertices | 05000000
3 | vertices | 01002000 | ends | 02000000 01002000
3 | edges | 00000000
3 | edges | 02000000
3 | edges | 01008000
3 | edges | ffffffff
3 | ends | 05000000 04000000
3 | ends | 04000000 02000000
3 | ends | 02000000 05000000
3 | ends | 02000000 03000000
3 | ends | 04000000 04000000
3 | ends | 03000000 04000000
3 | ends | 01000000 04000000
3 | scan | 00000000
3 | scan | 01000000 04000000 03000000 01000000
3 | scan | 01000000 02000000 04000000 01000000
3 | scan | 01000000 00000000 03000000 01000000
3 | scan | 01000000 01000000 03000000 01000000
3 | scan | 01000000 03000000 03000000 01000000
3 | scan | 02000000 02000000 03000000 01000000 02000000 03000000 01000000
3 | scan | 02000000 02000000 03000000 01000000 03000000 02000000 01000000
3 | push | 00000000
3 | push | 02000000 00000000 02000000 01000000 01000000 03000000 01000000
3 | push | 03000000 01000000 03000000 01000000 00000000 02000000 01000000 02000000 03000000 01000000
3 | push | 03000000 00000000 02000000 01000000 02000000 03000000 01000000 01000000 03000000 01000000
3 | push | 03000000 00000000 02000000 01000000 01000000 03000000 01000000 02000000 00000000 01000000
3 | push | 03000000 00000000 02000000 01000000 01000000 03000000 01000000 02000000 04000000 01000000
3 | push | 03000000 00000000 02000000 01000000 01000000 03000000 01000000 04000000 03000000 01000000
3 | degrees | 00000000
3 | degrees | 02000000 02000000 00000000 01000000 03000000 02000000 00000000
3 | degrees | 02000000 02000000 01000000 00000000 03000000 02000000 00000000
3 | degrees | 02000000 02000000 01000000 01000000 03000000 01000000 00000000
3 | degrees | 02000000 02000000 01000000 01000000 03000000 02000000 01000000
3 | degrees | 02000000 03000000 02000000 00000000 02000000 01000000 01000000
3 | degrees | 01000000 02000000 01000000 01000000
3 | degrees | 01000000 03000000 02000000 00000000
3 | degrees | 03000000 02000000 01000000 01000000 03000000 02000000 00000000 03000000 02000000 00000000
3 | degrees | 03000000 02000000 01000000 01000000 03000000 02000000 00000000 04000000 00000000 00000000
3 | degrees | 03000000 01000000 01000000 01000000 02000000 01000000 01000000 03000000 02000000 00000000
3 | machine | 02 | text | 00000000
4 | text | 00000000
4 | text | 010000003b
4 | text | 0100000023
4 | text | 020000002f2f
4 | text | 0700000076657274657820
4 | text | 04000000ffffffff";

/// Adds the bytes that a cell spells by two hexadecimal digits each, whatever blanks stand among them.
pub(crate) fn add_bytes(bytes: &mut Vec<u8>, cell: &str) -> Result<(), AllocError> {
    let mut high = None;
    for byte in cell.bytes() {
        let digit = match byte {
            b'0'..=b'9' => byte - b'0',
            b'a'..=b'f' => byte - b'a' + 10,
            _ => continue,
        };
        match high {
            None => high = Some(digit),
            Some(first) => {
                bytes.push(first << 4 | digit)?;
                high = None;
            }
        }
    }
    Ok(())
}

/// Adds the text of a program behind its length.
fn add_text(bytes: &mut Vec<u8>, program: &str) -> Result<(), AllocError> {
    let count = u32::try_from(program.len()).unwrap_or(0);
    bytes.extend_from_slice(&count.to_le_bytes())?;
    bytes.extend_from_slice(program.as_bytes())
}

/// What stands in the place of a piece, by the cells behind the number of a case.
fn instead<'a>(case: &'a str, piece: &str) -> Option<&'a str> {
    let mut cells = Cells::new(case);
    let _code = cells.text();
    for _ in 0..4 {
        let name = cells.text();
        let bytes = cells.text();
        if name == piece {
            return Some(bytes);
        }
    }
    None
}

/// The file with a program's text, where the pieces of a case stand in the place of others.
pub(crate) fn file_of(alloc: Global, program: &str, case: &str) -> Result<Vec<u8>, AllocError> {
    let mut bytes = Vec::new(alloc);
    for line in PIECES.lines() {
        let mut cells = Cells::new(line);
        let piece = cells.text();
        match instead(case, piece) {
            Some(cell) => add_bytes(&mut bytes, cell)?,
            None if piece == "text" => add_text(&mut bytes, program)?,
            None => add_bytes(&mut bytes, cells.text())?,
        }
    }
    Ok(bytes)
}

fn code_of(read: &Result<Part, PartFault>) -> u32 {
    match read {
        Ok(_) => 0,
        Err(PartFault::Magic) => 1,
        Err(PartFault::Length) => 2,
        Err(PartFault::Number) => 3,
        Err(PartFault::Text) => 4,
        Err(PartFault::Want) => 5,
    }
}

#[test]
fn part_files(rt: HostRuntime) -> Result<(), Fail> {
    let program = program_named("first0").ok_or("no program")?;
    for case in CASES.lines() {
        let bytes = file_of(rt.alloc(), program, case)?;
        let code = Cells::new(case).number()?;
        assert_eq!(rt; code_of(&read_part(rt.alloc(), &bytes)), code, "{case}");
    }
    Ok(())
}

#[test]
fn part_files_that_are_cut(rt: HostRuntime) -> Result<(), Fail> {
    let program = program_named("first0").ok_or("no program")?;
    let mut bytes = file_of(rt.alloc(), program, "0")?;
    for len in 0..bytes.len() {
        let code = if len < 4 { 1 } else { 2 };
        assert_eq!(rt;
            code_of(&read_part(rt.alloc(), &bytes[..len])),
            code,
            "{len}"
        );
    }
    bytes.push(0)?;
    assert_eq!(rt; code_of(&read_part(rt.alloc(), &bytes)), 2);
    Ok(())
}
