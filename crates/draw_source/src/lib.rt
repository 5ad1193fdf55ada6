//! The words that vertices draw.
#![tactic(auto)]

ghost use Rattle.std.specs.Prelude.{◌≡◌, ◌^◌, ◌<◌, ◌≤◌};
ghost use Rattle.draw_source.specs.Draws.{draw_word};

use rand_core::utils::NextWord;
use rand_pcg::Lcg64Xsh32;
use vert_base::VertexId;

/// The word that a vertex draws in a round for a tag.
pub fn draw(draws: u64, round: u32, v: VertexId, tag: u8) -> u32
    requires round { round ≤ 10000 }
    requires vertex { v.0 < 2 ^ 24 }
    ensures word { result ≡ draw_word draws round v.0 tag }
{
    let stream = u64::from(round) * (1 << 32) + u64::from(v.0) * (1 << 8) + u64::from(tag);
    Lcg64Xsh32::new(draws, stream).next_word()
}
