// A machine before its first action.
ghost use Rattle.std.specs.Prelude.{◌≡◌, ◌<◌, ◌≤◌, ◌+◌, IfOk, length, map, replicate};
ghost use Rattle.symple_face.specs.CoreFirst.{first_row_of};
ghost use Rattle.symple_face.specs.CoreScan.{fresh};
ghost use Rattle.symple_face.specs.CoreSight.{field_count};
ghost use Rattle.symple_face.specs.CoreTakes.{empty_partials, slot_count};
ghost use Rattle.symple_face.specs.PartViews.{plain_of};
ghost use Rattle.symple_face.specs.Parts.{chunk_vertices};
ghost use Rattle.symple_face.specs.Plans.{loop_carry};
ghost use Rattle.symple_face.specs.Shapes.{reduced_in, words_in};

use flat_table::Grid;
use machine_parts::{Groups, RingHalf, Rows};
use machine_steps::{empty_row, ring_width};
use slot_merge::Partial;
use state_laws::tells_can_run;
use std::alloc::Global;
use symple_face::Part;
use vert_base::Want;
use vert_code::compile;
use vertex_work::{Ground, fill_rows};

/// The code of a part's program and the tables of its edges, with the part.
pub(crate) fn make_ground(alloc: Global, part: Part) -> Result<Ground, Want>
    ensures { IfOk result (λ ground. ground.part ≡ part) }
{
    tells_can_run(&part);
    let code = compile(alloc, &part.split)?;
    let groups = Groups::make(alloc, &part)?;
    Ok(Ground { part, code, groups })
}

/// The tables of a machine before the first round.
#[derive(Drop)]
pub(crate) struct Blank {
    pub(crate) rows: Rows,
    pub(crate) partials: Grid<Partial>,
    pub(crate) ring: RingHalf,
    pub(crate) reading: Vec<u32>,
    pub(crate) reads: Vec<u32>,
}

/// These tables. Nothing else of the memory that a machine keeps grows with its part.
pub(crate) fn blank_tables(alloc: Global, ground: &Ground) -> Result<Blank, Want>
    ensures rows { IfOk result (λ blank. blank.rows ≡ record {
      width = field_count ground.now.part.split.value;
      rows = map (first_row_of (plain_of ground.now.part) ground.now.part.split.value)
          (chunk_vertices ground.now.part.cuts ground.now.part.at.machine);
    }) }
    ensures partials { IfOk result (λ blank. blank.partials ≡ record {
      width = slot_count ground.now.part.split.value
          + length (reduced_in ground.now.part.split.value.dense);
      rows = map (λ v. empty_partials ground.now.part.split.value)
          (chunk_vertices ground.now.part.cuts ground.now.part.at.machine);
    }) }
    ensures ring { IfOk result (λ blank. blank.ring ≡ record {
      width = words_in (loop_carry ground.now.part.split.value.dense);
      states = map (λ v. fresh ground.now.part.split.value)
          (chunk_vertices ground.now.part.cuts ground.now.part.at.machine);
    }) }
    ensures reading { IfOk result (λ blank. blank.reading.items
        ≡ replicate (length ground.now.groups.targets.items) 0) }
    ensures reads { IfOk result (λ blank. blank.reads.items
        ≡ replicate (length ground.now.groups.targets.items) 0) }
{
    Ok(Blank {
        rows: first_rows(alloc, ground)?,
        partials: blank_partials(alloc, ground)?,
        ring: blank_ring(alloc, ground)?,
        reading: zeros(alloc, ground.groups.targets.len())?,
        reads: zeros(alloc, ground.groups.targets.len())?,
    })
}

// The rows of the own vertices before the first round.
fn first_rows(alloc: Global, ground: &Ground) -> Result<Rows, Want>
    ensures { IfOk result (λ rows. rows ≡ record {
      width = field_count ground.now.part.split.value;
      rows = map (first_row_of (plain_of ground.now.part) ground.now.part.split.value)
          (chunk_vertices ground.now.part.cuts ground.now.part.at.machine);
    }) }
{
    let width = ground.program().fields.len();
    let mut rows = Rows::still(alloc, width, ground.own_count())?;
    fill_rows(ground, &mut rows);
    Ok(rows)
}

// Partials to which nothing came, of all own vertices.
fn blank_partials(alloc: Global, ground: &Ground) -> Result<Grid<Partial>, Want>
    ensures { IfOk result (λ partials. partials ≡ record {
      width = slot_count ground.now.part.split.value
          + length (reduced_in ground.now.part.split.value.dense);
      rows = map (λ v. empty_partials ground.now.part.split.value)
          (chunk_vertices ground.now.part.cuts ground.now.part.at.machine);
    }) }
{
    let empty = empty_row(ground.split());
    let count = ground.own_count();
    let mut partials = Grid::filled(alloc, empty.len(), count, Partial::default())?;
    put_in_each(&mut partials, count, empty.as_slice());
    Ok(partials)
}

// Puts one row into each of so many places.
fn put_in_each(grid: &mut Grid<Partial>, count: usize, row: &[Partial])
    requires count { count ≡ length grid.old.rows }
    requires width { length row.now ≡ grid.old.width }
    ensures { grid.new ≡ record grid.old { rows = replicate count row.now } }
{
    'places: for place in 0..count {
        grid.put_row(place, row);
    }
}

// Loops that haven't begun, of all own vertices.
fn blank_ring(alloc: Global, ground: &Ground) -> Result<RingHalf, Want>
    ensures { IfOk result (λ ring. ring ≡ record {
      width = words_in (loop_carry ground.now.part.split.value.dense);
      states = map (λ v. fresh ground.now.part.split.value)
          (chunk_vertices ground.now.part.cuts ground.now.part.at.machine);
    }) }
{
    let ring = RingHalf::fresh(alloc, ring_width(ground.split()), ground.own_count())?;
    Ok(ring)
}

// A list of so many zeros. It takes all its memory at once.
fn zeros(alloc: Global, count: usize) -> Result<Vec<u32>, Want>
    ensures { IfOk result (λ list. list.items ≡ replicate count 0) }
{
    let mut list = Vec::with_capacity(alloc, count)?;
    'zeros: for _ in 0..count {
        list.push(0)?;
    }
    Ok(list)
}
