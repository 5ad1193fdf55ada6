ghost use Rattle.std.specs.Prelude.{◌≡◌, ◌≢◌, ◌≤◌, ◌<◌, ◌^◌, ◌++◌, [], IfOk, OnOk, length, map};
ghost use Rattle.vert_base.specs.declared.value.Ruling.TheVariants.{Stop};
ghost use Rattle.vert_base.specs.HeaderBytes.{four_bytes};
ghost use Rattle.body_shape.specs.Refresh.{plain_row, refresh_body, words_bytes};
ghost use Rattle.body_shape.specs.Tally.{number_bytes};
ghost use Rattle.body_shape.specs.Verdict.{ruling_byte};
ghost use Rattle.symple_face.specs.Work.{plain_start};
ghost use Rattle.check_point.specs.Images.{front_bytes, head_bytes, image_bytes};

use body_shape::{put_row, put_words};
use sha2::{Digest, Sha256};
use std::alloc::Global;
use symple_face::Start;
use vert_base::{Row, Ruling, Want};

/// The image of a start, under a key.
pub fn write_image(alloc: Global, key: &[u8; 32], start: &Start) -> Result<Vec<u8>, Want>
    requires round { 1 ≤ start.now.round }
    requires ruling { start.now.ruling ≢ Stop }
    requires rows { length start.now.rows.items < 2 ^ 32 }
    ensures { IfOk result (λ bytes. bytes.items ≡ image_bytes key.now (plain_start start.now)) }
{
    let mut bytes = front_of(alloc, key, start)?;
    let digest = Sha256::digest(bytes.as_slice());
    bytes.extend_from_slice(&digest)?;
    Ok(bytes)
}

// All but the digest.
fn front_of(alloc: Global, key: &[u8; 32], start: &Start) -> Result<Vec<u8>, Want>
    requires round { 1 ≤ start.now.round }
    requires rows { length start.now.rows.items < 2 ^ 32 }
    ensures { IfOk result (λ bytes. bytes.items ≡ front_bytes key.now (plain_start start.now)) }
{
    let mut bytes = Vec::with_capacity(alloc, room_for(start))?;
    put_head(&mut bytes, key, start)?;
    put_rows(&mut bytes, start.rows.as_slice())?;
    put_totals(&mut bytes, start.totals.as_slice())?;
    Ok(bytes)
}

// How many bytes an image takes, so that memory is taken once: where rows are as wide as the first
// one, and totals are few.
fn room_for(start: &Start) -> usize
    requires { length start.now.rows.items < 2 ^ 32 }
{
    let words = match start.rows.first() {
        Some(row) => row.words.len() + 1,
        None => 0,
    };
    128 + 8 * words * start.rows.len()
}

fn put_head(bytes: &mut Vec<u8>, key: &[u8; 32], start: &Start) -> Result<(), Want>
    requires round { 1 ≤ start.now.round }
    requires rows { length start.now.rows.items < 2 ^ 32 }
    requires empty { bytes.old.items ≡ [] }
    ensures { OnOk result (bytes.new.items ≡ head_bytes key.now (plain_start start.now)) }
{
    bytes.extend_from_slice(b"SGI1")?;
    bytes.extend_from_slice(key)?;
    put_four(bytes, start.round - 1)?;
    bytes.extend_from_slice(&[byte_of(start.ruling)])?;
    put_number(bytes, start.active)?;
    put_number(bytes, start.edges)?;
    put_four(bytes, start.rows.len() as u32)
}

fn byte_of(ruling: Ruling) -> u8
    ensures { result ≡ ruling_byte ruling }
{
    match ruling {
        Ruling::Stop => 0,
        Ruling::Dense => 1,
        Ruling::Sparse => 2,
    }
}

#[tactic(auto, unfolding(vert_base::specs::HeaderBytes::four_bytes))]
fn put_four(bytes: &mut Vec<u8>, number: u32) -> Result<(), Want>
    ensures { OnOk result (bytes.new.items ≡ bytes.old.items ++ four_bytes number) }
{
    bytes.extend_from_slice(&number.to_le_bytes())?;
    Ok(())
}

#[tactic(auto, unfolding(body_shape::specs::Tally::number_bytes))]
fn put_number(bytes: &mut Vec<u8>, number: u64) -> Result<(), Want>
    ensures { OnOk result (bytes.new.items ≡ bytes.old.items ++ number_bytes number) }
{
    bytes.extend_from_slice(&number.to_le_bytes())?;
    Ok(())
}

fn put_rows(bytes: &mut Vec<u8>, rows: &[Row]) -> Result<(), Want>
    ensures { OnOk result (bytes.new.items
        ≡ bytes.old.items ++ refresh_body (map plain_row rows.now)) }
{
    for row in rows {
        put_row(bytes, row.words.as_slice(), row.active)?;
    }
    Ok(())
}

fn put_totals(bytes: &mut Vec<u8>, totals: &[i64]) -> Result<(), Want>
    ensures { OnOk result (bytes.new.items ≡ bytes.old.items ++ words_bytes totals.now) }
{
    for total in totals {
        put_words(bytes, &[*total])?;
    }
    Ok(())
}
