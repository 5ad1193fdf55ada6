ghost use Rattle.std.specs.Prelude.{◌≡◌, MatchOption, None, Some};
ghost use Rattle.body_shape.specs.Fit.{are_updates, behind_update, is_mask};

/// Whether a body is an update for each of so many vertices.
pub(crate) fn are_updates(body: &[u8], vertices: u32, slots: u8, reduced: u8) -> bool
    ensures { result ≡ are_updates slots reduced vertices body.now }
{
    let mut rest = body;
    'vertices: for _ in 0..vertices {
        match behind_update(rest, slots, reduced) {
            Some(others) => rest = others,
            None => return false,
        }
    }
    rest.is_empty()
}

// The bytes behind the update of a vertex, where one stands at the front.
fn behind_update(bytes: &[u8], slots: u8, reduced: u8) -> Option<&[u8]>
    ensures { MatchOption result (behind_update slots reduced bytes.now ≡ None) (λ rest.
        behind_update slots reduced bytes.now ≡ Some rest.now) }
{
    match bytes {
        [low, high, words @ ..] => {
            let count = 8 * (low.count_ones() + high.count_ones()) as usize;
            if is_mask(slots, *low) && is_mask(reduced, *high) && count <= words.len() {
                Some(&words[count..])
            } else {
                None
            }
        }
        _ => None,
    }
}

// Whether no bit from a place on is set.
fn is_mask(place: u8, bits: u8) -> bool
    ensures { result ≡ is_mask place bits }
{
    u16::from(bits) < 1 << place.min(8)
}
