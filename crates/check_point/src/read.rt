ghost use Rattle.std.specs.Prelude.{◌≡◌, ◌≤◌, ◌<◌, ◌^◌, ◌+◌, ◌*◌, suc, IfOk, drop, length, map};
ghost use Rattle.dep_layout.specs.Judgement.{words_in};
ghost use Rattle.body_shape.specs.Refresh.{row_at, rows_read};
ghost use Rattle.body_shape.specs.Verdict.{ruling_with};
ghost use Rattle.symple_face.specs.CoreSight.{told_row};
ghost use Rattle.symple_face.specs.Work.{plain_start};
ghost use Rattle.check_point.specs.Images.{head_in, start_in};
ghost use Rattle.check_point.specs.Judgement.{Reads};

use crate::fault::ImageFault;
use crate::head::head_of;
use crate::judge::{is_own, is_whole};
use arrayvec::ArrayVec;
use body_shape::{behind, read_row, read_words};
use instrument::Split;
use std::alloc::Global;
use symple_face::Start;
use vert_base::{Row, Ruling, Want};

/// The start that an image tells, where it is whole and is one of this run: of the program, of so
/// many vertices, and with the key.
pub fn read_image(
    alloc: Global,
    bytes: &[u8],
    key: &[u8; 32],
    split: &Split,
    vertices: u32,
) -> Result<Start, ImageFault>
    ensures { Reads split.now vertices key.now bytes.now result }
{
    let fields = split.program.program.fields.as_slice().len();
    let totals = split.program.program.totals.as_slice().len();
    if !is_whole(bytes, fields, vertices as usize, totals) {
        return Err(ImageFault::Torn);
    }
    if !is_own(bytes, key, split, vertices) {
        return Err(ImageFault::Other);
    }
    match start_of(alloc, bytes, fields, vertices, totals) {
        Ok(start) => Ok(start),
        Err(_) => Err(ImageFault::Want),
    }
}

// The start of so many rows and totals.
fn start_of(
    alloc: Global,
    bytes: &[u8],
    fields: usize,
    vertices: u32,
    totals: usize,
) -> Result<Start, Want>
    requires fields { fields ≤ 16 }
    requires totals { totals ≤ 4 }
    requires long { 61 ≤ length bytes.now }
    requires late { (head_in bytes.now).ended + 1 < 2 ^ 32 }
    ensures { IfOk result (λ start. plain_start start ≡ start_in fields vertices totals bytes.now) }
{
    let head = head_of(bytes);
    let place = 61 + 8 * (fields + 1) * vertices as usize;
    let rows = rows_of(alloc, behind(bytes, 61), fields, vertices)?;
    let totals = totals_of(alloc, bytes, place, totals)?;
    Ok(Start {
        round: head.ended + 1,
        ruling: ruling_of(head.ruling),
        active: head.active,
        edges: head.edges,
        rows,
        totals,
    })
}

fn ruling_of(byte: u8) -> Ruling
    ensures { result ≡ ruling_with byte }
{
    match byte {
        0 => Ruling::Stop,
        1 => Ruling::Dense,
        _ => Ruling::Sparse,
    }
}

fn rows_of(alloc: Global, body: &[u8], fields: usize, vertices: u32) -> Result<Vec<Row>, Want>
    requires { fields ≤ 16 }
    ensures { IfOk result (λ rows. rows.items ≡ map told_row (rows_read fields vertices body.now)) }
{
    let mut rows = Vec::with_capacity(alloc, vertices as usize)?;
    for place in 0..vertices {
        rows.push(row_of(body, fields, place))?;
    }
    Ok(rows)
}

fn row_of(body: &[u8], fields: usize, place: u32) -> Row
    requires { fields ≤ 16 }
    ensures { result ≡ told_row (row_at fields place body.now) }
{
    let mut row = Row {
        words: ArrayVec::new(),
        active: false,
    };
    read_row(body, fields, place as usize, &mut row);
    row
}

fn totals_of(alloc: Global, bytes: &[u8], place: usize, count: usize) -> Result<Vec<i64>, Want>
    requires { count ≤ 4 }
    ensures { IfOk result (λ totals. totals.items ≡ words_in count (drop place bytes.now)) }
{
    let mut words = ArrayVec::<i64, 4>::new();
    read_words(bytes, place, count, &mut words);
    Ok(Vec::from_slice(alloc, words.as_slice())?)
}
