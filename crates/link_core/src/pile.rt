// Equal things on the wire, by the names of messages.
ghost use Rattle.std.specs.Prelude.{◌≡◌, ◌≤◌, length, IfErr, IfOk};
ghost use Rattle.vert_base.specs.Names.{is_before as precedes};
ghost use Rattle.link_core.specs.PilePlaces.{HasNoPile, IsPileAt, place_of};
ghost use Rattle.link_core.specs.Piles.{Ascend};

use vert_base::Name;

/// So many copies of the message of a name, or so many acknowledgements of it.
#[derive(Clone, Copy, Debug, PartialEq, Eq)]
pub struct Pile {
    pub name: Name,
    pub count: u8,
}

// How many piles have names before this one.
fn place_of(piles: &[Pile], name: &Name) -> usize
    requires { Ascend piles.now }
    ensures value { result ≡ place_of name.now piles.now }
    ensures within { result ≤ length piles.now }
{
    piles.partition_point(
        |pile: &Pile| -> bool
            ensures { result ≡ precedes pile.now.name name.entry.now }
        { is_before(&pile.name, name) },
    )
}

/// Where the pile of a name stands, or where it would.
pub(crate) fn find_in(piles: &[Pile], name: &Name) -> Result<usize, usize>
    requires { Ascend piles.now }
    ensures there { IfOk result (IsPileAt name.now piles.now) }
    ensures missing { IfErr result (HasNoPile name.now piles.now) }
{
    let at = place_of(piles, name);
    match piles.get(at) {
        Some(pile) if !is_before(name, &pile.name) => Ok(at),
        _ => Err(at),
    }
}

// The order of names.
fn is_before(left: &Name, right: &Name) -> bool
    ensures { result ≡ precedes left.now right.now }
{
    left < right
}
