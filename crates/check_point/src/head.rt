ghost use Rattle.std.specs.Prelude.{◌≡◌, ◌≤◌, ◌+◌, drop, length, take};
ghost use Rattle.vert_base.specs.HeaderBytes.{number_of_four};
ghost use Rattle.check_point.specs.Images.{head_in};

use body_shape::number_at;

/// The numbers at the front of an image: the round that ended, the ruling as a byte, the active
/// vertices and edges at the beginning of the next round, and how many vertices there are.
#[derive(Clone, Copy)]
pub(crate) struct Head {
    pub(crate) ended: u32,
    pub(crate) ruling: u8,
    pub(crate) active: u64,
    pub(crate) edges: u64,
    pub(crate) count: u32,
}

/// The head of an image, which is there.
pub(crate) fn head_of(bytes: &[u8]) -> Head
    requires { 61 ≤ length bytes.now }
    ensures { result ≡ head_in bytes.now }
{
    Head {
        ended: four_at(bytes, 36),
        ruling: bytes[40],
        active: number_at(bytes, 41),
        edges: number_at(bytes, 49),
        count: four_at(bytes, 57),
    }
}

fn four_at(bytes: &[u8], place: usize) -> u32
    requires { place + 4 ≤ length bytes.now }
    ensures { result ≡ number_of_four (take 4 (drop place bytes.now)) }
{
    four_of(&bytes[place..place + 4])
}

#[tactic(auto, unfolding(vert_base::specs::HeaderBytes::number_of_four))]
fn four_of(bytes: &[u8]) -> u32
    requires { length bytes.now ≡ 4 }
    ensures { result ≡ number_of_four bytes.now }
{
    u32::from_le_bytes([bytes[0], bytes[1], bytes[2], bytes[3]])
}
