// The messages of a round that a machine holds.
ghost use Rattle.std.specs.Prelude.{◌≡◌, [], ◌∷◌};
ghost use Rattle.vert_base.specs.Letters.{found};
ghost use Rattle.double_buffer.specs.Held.{AreOfRound};
ghost use Rattle.double_buffer.specs.Taking.{CanTake};
ghost use Rattle.symple_face.specs.CoreSight.{body_of};
ghost use Rattle.symple_face.specs.CoreTakes.{emptied};

use double_buffer::Slots;
use vert_base::Name;
use vert_base::limits::MACHINES;

/// The body of a message, without a byte where there is none.
pub fn held_body<'a>(held: &'a Slots<MACHINES>, name: &Name) -> &'a [u8]
    ensures { result.now ≡ body_of (found name.now held.now.letters) }
{
    match held.peek(name) {
        Some(body) => body,
        None => &[],
    }
}

/// Drops the body of a message, where it is held. Its name still counts as taken.
pub(crate) fn drop_body(held: &mut Slots<MACHINES>, name: &Name)
    requires one { CanTake held.old.machines name.now }
    requires together { AreOfRound name.now.round name.now.to held.old.letters }
    ensures { held.new ≡ record held.old {
      letters = emptied (name.now ∷ []) held.old.letters;
    } }
{
    if held.has(name) {
        let _body = held.lift(name);
        held.mark(name);
    }
}
