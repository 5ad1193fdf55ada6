ghost use Rattle.std.specs.Prelude.{◌≡◌, ◌≤◌, length};
ghost use Rattle.body_shape.specs.Fit.{is_count, is_fit, is_ruling, is_tally, is_verdict, number_of};

use crate::rows::are_rows;
use crate::sends::is_push;
use crate::updates::are_updates;
use dep_layout::fits_ring;
use symple_face::BodyShape;

/// Whether a body has a form. It takes no memory, and a time linear in the vertices and the body.
pub fn fits(shape: &BodyShape, body: &[u8]) -> bool
    ensures { result ≡ is_fit shape.now body.now }
{
    match *shape {
        BodyShape::Refresh {
            vertices,
            words,
            bools,
        } => are_rows(body, vertices as usize, usize::from(words), bools),
        BodyShape::Dep {
            vertices,
            words,
            bools,
        } => fits_ring(body, vertices, words, bools),
        BodyShape::Update {
            vertices,
            slots,
            reduced,
        } => are_updates(body, vertices, slots, reduced),
        BodyShape::Push {
            vertices,
            words,
            bools,
        } => is_push(body, vertices as usize, usize::from(words), bools),
        BodyShape::Tally { totals } => is_tally(body, totals),
        BodyShape::Verdict {
            dense,
            sparse,
            totals,
        } => is_verdict(body, dense, sparse, totals),
    }
}

// The number that the first eight bytes spell, the low one first.
#[tactic(auto, unfolding(body_shape::specs::Fit::number_of))]
fn is_count(bytes: &[u8]) -> bool
    requires { 8 ≤ length bytes.now }
    ensures { result ≡ is_count bytes.now }
{
    let number = u64::from_le_bytes([
        bytes[0], bytes[1], bytes[2], bytes[3], bytes[4], bytes[5], bytes[6], bytes[7],
    ]);
    number <= 1 << 32
}

fn is_tally(body: &[u8], totals: u8) -> bool
    ensures { result ≡ is_tally totals body.now }
{
    body.len() == 24 + 8 * usize::from(totals)
        && is_count(body)
        && is_count(&body[8..])
        && is_count(&body[16..])
}

fn is_verdict(body: &[u8], dense: bool, sparse: bool, totals: u8) -> bool
    ensures { result ≡ is_verdict dense sparse totals body.now }
{
    match body {
        [] => false,
        [ruling, words @ ..] => {
            is_ruling(*ruling, dense, sparse) && words.len() == 8 * usize::from(totals)
        }
    }
}

fn is_ruling(ruling: u8, dense: bool, sparse: bool) -> bool
    ensures { result ≡ is_ruling dense sparse ruling }
{
    match ruling {
        0 => true,
        1 => dense,
        2 => sparse,
        _ => false,
    }
}
