ghost use Rattle.std.specs.Prelude.{◌≡◌, ◌≤◌, ◌<◌, ◌+◌, ◌*◌, ◌/◌, ◌%◌, ◌^◌, ◌++◌, None, false, drop, length, replicate, slice_index, slice_index_or, slice_set, vec_capacity, vec_len, IsOk, OnErr, OnOk};
ghost use Rattle.dep_layout.specs.Judgement.{words_in};
ghost use Rattle.body_shape.specs.Fit.{bit_len};
ghost use Rattle.body_shape.specs.Push.{AddsSend, push_body, send_at, senders};

use crate::words::{byte_at, lay, read_words};
use arrayvec::ArrayVec;
use vert_base::Want;

/// Writes a push of so many vertices, none of which sends, at the end of bytes.
pub fn put_no_sends(bytes: &mut Vec<u8>, vertices: usize) -> Result<(), Want>
    requires { vertices < 2 ^ 32 }
    ensures put { OnOk result (bytes.new.items
        ≡ bytes.old.items ++ push_body (replicate vertices None)) }
    ensures want { OnErr result (bytes.new.items ≡ bytes.old.items) }

    // It succeeds where there is room, and gives none up.
    ensures room { vec_len bytes.old + bit_len vertices ≤ vec_capacity bytes.old → IsOk result }
    ensures capacity { vec_capacity bytes.old ≤ vec_capacity bytes.new }
{
    let count = vertices.div_ceil(8);
    bytes.reserve(count)?;
    'bytes: for _ in 0..count {
        bytes.extend_from_slice(&[0])?;
    }
    Ok(())
}

// A byte with a bit that wasn't set.
fn with_bit(byte: u8, place: usize) -> u8
    requires place { place < 8 }
    requires clear { byte / 2 ^ place % 2 ≡ 0 }
    ensures { result ≡ byte + 2 ^ place }
{
    byte + (1 << place)
}

// Sets the bit of a vertex.
fn set_bit(push: &mut Vec<u8>, vertex: usize)
    requires { vertex / 8 < length push.old.items }
    ensures set { slice_index push.old.items (vertex / 8) / 2 ^ (vertex % 8) % 2 ≡ 0
        → push.new.items ≡ slice_set push.old.items (vertex / 8)
        (slice_index push.old.items (vertex / 8) + 2 ^ (vertex % 8)) }
    ensures len { vec_len push.new ≡ vec_len push.old }
    ensures capacity { vec_capacity push.new ≡ vec_capacity push.old }
{
    let byte = push[vertex / 8];
    if (byte >> (vertex % 8)) % 2 == 0 {
        push[vertex / 8] = with_bit(byte, vertex % 8);
    }
}

/// Lets a vertex send these words, by a push in which neither it nor a later one sends yet.
pub fn put_send(push: &mut Vec<u8>, vertex: usize, words: &[i64]) -> Result<(), Want>
    requires within { vertex / 8 < length push.old.items }
    requires few { length words.now ≤ 16 }
    ensures put { OnOk result (AddsSend push.old.items vertex words.now push.new.items) }
    ensures want { OnErr result (push.new.items ≡ push.old.items) }

    // It succeeds where there is room, and gives none up.
    ensures room { vec_len push.old + 8 * length words.now ≤ vec_capacity push.old → IsOk result }
    ensures capacity { vec_capacity push.old ≤ vec_capacity push.new }
{
    push.reserve(8 * words.len())?;
    set_bit(push, vertex);
    lay(push, words)
}

/// Whether a vertex sends, by a push of so many vertices.
#[inline]
pub fn is_sender(push: &[u8], vertices: usize, vertex: usize) -> bool
    requires vertex { vertex < vertices }
    requires vertices { vertices < 2 ^ 32 }
    ensures { result ≡ slice_index_or (senders vertices push.now) vertex false }
{
    (byte_at(push, vertex / 8) >> (vertex % 8)) % 2 != 0
}

/// Reads the words that a sender sends into a list. So many vertices before it send too.
pub fn read_sends<const N: usize>(
    push: &[u8],
    vertices: usize,
    earlier: usize,
    count: usize,
    sends: &mut ArrayVec<i64, N>,
)
    requires vertices { vertices < 2 ^ 32 }
    requires earlier { earlier < 2 ^ 32 }
    requires few { count ≤ 8 }
    requires fits { count ≤ N }
    ensures { sends.new.items ≡ send_at count vertices earlier push.now }
{
    read_words(
        push,
        vertices.div_ceil(8) + 8 * count * earlier,
        count,
        sends,
    );
}
