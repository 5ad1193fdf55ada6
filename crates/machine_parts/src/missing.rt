// What a machine waits for.
ghost use Rattle.std.specs.Prelude.{◌≡◌, ◌≤◌, ◌<◌};
ghost use Rattle.circulant_plan.specs.Spots.{IsSpotOf};
ghost use Rattle.circulant_plan.specs.Table.{needs_of};
ghost use Rattle.symple_face.specs.State.{first_missing as missing_of};

use circulant_plan::{Ring, Spot, need};
use double_buffer::Slots;
use vert_base::Name;
use vert_base::limits::MACHINES;

/// The first message that a machine needs at its spot and doesn't hold.
pub fn first_missing(ring: &Ring, m: u8, spot: &Spot, held: &Slots<MACHINES>) -> Option<Name>
    requires machine { m < ring.now.machines }
    requires few { ring.now.machines ≤ 64 }
    requires spot { IsSpotOf ring.now spot.now }
    ensures { result ≡ missing_of (needs_of ring.now m spot.now) held.now.letters }
{
    let mut place = 0;
    'needs: while let Some(name) = need(ring, m, spot, place) {
        if !held.has(&name) {
            return Some(name);
        }
        place += 1;
    }
    None
}
