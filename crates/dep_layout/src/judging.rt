ghost use Rattle.std.specs.Prelude.{◌≡◌, ◌↔◌, ◌<◌, IsTrue};
ghost use Rattle.dep_layout.specs.Judgement.{FitsRing, refusal_of};

use crate::fault::DepFault;
use crate::marks::{has_both, is_set_behind, mark_len, started};
use crate::words::are_typed;

/// Whether a body spells the ring states of so many vertices with so many words each. It takes no memory.
pub fn fits_ring(body: &[u8], vertices: u32, words: u8, bools: u8) -> bool
    ensures { IsTrue result ↔ FitsRing words vertices bools body.now }
{
    fault_of(body, vertices, usize::from(words), bools).is_none()
}

/// The first fault of a body.
pub(crate) fn fault_of(body: &[u8], vertices: u32, width: usize, bools: u8) -> Option<DepFault>
    requires { width < 256 }
    ensures { result ≡ refusal_of width vertices bools body.now }
{
    let vertices = vertices as usize;
    let count = mark_len(vertices);
    if body.len() < count {
        return Some(DepFault::Length);
    }
    let (marks, words) = body.split_at(count);
    if has_both(marks, vertices) {
        return Some(DepFault::Bits);
    }
    if is_set_behind(marks, vertices) {
        return Some(DepFault::Padding);
    }
    let vertices = started(marks, vertices);
    if words.len() != 8 * width * vertices {
        return Some(DepFault::Length);
    }
    if !are_typed(words, vertices, width, u32::from(bools)) {
        return Some(DepFault::NotBool);
    }
    None
}
