// The updates that other machines send.
ghost use Rattle.std.specs.Prelude.{◌≡◌, ◌≤◌, ◌<◌, ◌+◌, length};
ghost use Rattle.std.specs.List.{All};
ghost use Rattle.symple_face.specs.CoreTakes.{slot_count, with_update};
ghost use Rattle.symple_face.specs.PartViews.{plain_of};
ghost use Rattle.symple_face.specs.Parts.{chunk_vertices};
ghost use Rattle.symple_face.specs.Shapes.{reduced_in};
ghost use Rattle.symple_face.specs.State.{State};
ghost use Rattle.vertex_work.specs.Shown.{ShowsPartials};

use crate::ground::Ground;
use crate::lists::{list_at, vertices_within};
use flat_table::Grid;
use machine_parts::merge_update;
use slot_merge::Partial;
use vert_base::Name;

/// Adds what an update tells to the partials of the own vertices. It takes no memory.
pub fn add_update(ground: &Ground, name: &Name, body: &[u8], partials: &mut Grid<Partial>)
    requires half { name.now.half ≤ 1 }
    requires count { length partials.old.rows
        ≡ length (chunk_vertices ground.now.part.cuts ground.now.part.at.machine) }
    requires width { partials.old.width ≡ slot_count ground.now.part.split.value
        + length (reduced_in ground.now.part.split.value.dense) }
    requires each { All (λ ps. length ps ≡ partials.old.width) partials.old.rows }
    ensures { (s : State)
        → ShowsPartials (plain_of ground.now.part) ground.now.part.split.value partials.old.rows s
        → partials.new ≡ record partials.old { rows = with_update s name.now body.now } }
{
    let told = list_at(&ground.part.refresh_to, name.from);
    let list = vertices_within(told, ground.half(ground.machine(), name.half));
    let key = u32::from(name.step);
    merge_update(
        body,
        list,
        &ground.sent_words(),
        key,
        partials,
        ground.start(),
    );
}
