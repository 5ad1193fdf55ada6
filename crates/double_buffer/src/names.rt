ghost use Rattle.std.specs.Prelude.{◌≡◌, ◌≤◌};
ghost use Rattle.vert_base.specs.Names.{kind_place};
ghost use Rattle.double_buffer.specs.Places.{place_in_row, place_of as name_place};

use vert_base::{Name, NameKind};

fn row_of(kind: NameKind) -> usize
    ensures row { result ≡ kind_place kind }
    ensures six { result ≤ 5 }
{
    kind as usize
}

fn at_in_row(name: &Name) -> usize
    ensures place { result ≡ place_in_row name.now.kind name.now }
    ensures small { result ≤ 765 }
{
    match name.kind {
        NameKind::Dep | NameKind::Update => 2 * usize::from(name.step) + usize::from(name.half),
        NameKind::Refresh | NameKind::Push | NameKind::Tally | NameKind::Verdict => {
            usize::from(name.from)
        }
    }
}

/// The place of a name among those of so many machines.
pub(crate) fn place_of(machines: u8, name: &Name) -> usize
    ensures { result ≡ name_place machines name.now }
{
    2 * usize::from(machines) * row_of(name.kind) + at_in_row(name)
}
