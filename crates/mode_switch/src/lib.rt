//! What happens after a round: no round, or one in a mode.
#![tactic(auto)]

ghost use Rattle.std.specs.Prelude.{◌≡◌, ◌^◌, ◌<◌};
ghost use Rattle.mode_switch.specs.Ruling.{ruling_of};

use vert_base::{Mode, Ruling};

/// The ruling for a round at whose start so many vertices are active, with so many edges out of
/// them among all the edges.
pub fn ruling(
    active: u64,
    active_edges: u64,
    edges: u64,
    round: u32,
    limit: u32,
    mode: Mode,
) -> Ruling
    requires active { active < 2 ^ 40 }
    requires active_edges { active_edges < 2 ^ 40 }
    requires edges { edges < 2 ^ 40 }
    ensures ruling { result ≡ ruling_of active active_edges edges round limit mode }
{
    if active == 0 || round > limit {
        return Ruling::Stop;
    }
    match mode {
        Mode::Dense => Ruling::Dense,
        Mode::Sparse => Ruling::Sparse,
        Mode::Auto => {
            if 20 * active_edges > edges {
                Ruling::Dense
            } else {
                Ruling::Sparse
            }
        }
    }
}
