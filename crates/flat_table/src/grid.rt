ghost use Rattle.std.specs.Prelude.{◌≡◌, ◌<◌, ◌+◌, ◌*◌, ◌^◌, [], length, replicate, slice_index_or, slice_set, IfOk};
ghost use Rattle.flat_table.specs.Grids.{rows_of};

use std::alloc::Global;
use std::marker::Model;
use vert_base::Want;

/// Rows of equal width in one vector, seen as the list of its rows.
#[derive(Drop)]
pub struct Grid<T: Copy> {
    width: usize,
    count: usize,
    cells: Vec<T>,
}

impl<T: Copy> Model for Grid<T> {
    ghost use Rattle.std.specs.Prelude.{◌≡◌, ◌<◌, ◌*◌, ◌^◌, length};
    ghost use Rattle.flat_table.specs.Grids.{Rows, rows_of};

    ghost Value = { Rows T };

    ghost view = { λ g. record { width = g.width; rows = rows_of g.width g.count g.cells.items } };

    ghost invariant = { λ g. (length g.cells.items ≡ g.width * g.count)
        × (g.width < 2 ^ 16) × (g.count < 2 ^ 32) };
}

impl<T: Copy> Grid<T> {
    /// So many rows, with one value in each cell. It takes all the memory that the rows need.
    pub fn filled(alloc: Global, width: usize, count: usize, value: T) -> Result<Grid<T>, Want>
        requires width { width < 2 ^ 16 }
        requires count { count < 2 ^ 32 }
        ensures { IfOk result (λ grid. grid
            ≡ record { width = width; rows = replicate count (replicate width value) }) }
    {
        let size = width * count;
        let mut cells = Vec::with_capacity(alloc, size)?;
        cells.resize(size, value)?;
        Ok(Grid {
            width,
            count,
            cells,
        })
    }

    /// The row at a place.
    #[inline]
    pub fn row(&self, place: usize) -> &[T]
        requires { place < length self.now.rows }
        ensures { result.now ≡ slice_index_or self.now.rows place [] }
    {
        row_in(self.cells.as_slice(), self.width, self.count, place)
    }

    /// Puts a value into a cell.
    #[inline]
    pub fn put(&mut self, place: usize, column: usize, value: T)
        requires place { place < length self.old.rows }
        requires column { column < self.old.width }
        ensures { self.new ≡ record self.old {
          rows = slice_set self.old.rows place
              (slice_set (slice_index_or self.old.rows place []) column value);
        } }
    {
        let cell = cell_of(self.width, self.count, place, column);
        self.cells[cell] = value;
    }

    /// Puts a row into its place.
    #[inline]
    pub fn put_row(&mut self, place: usize, row: &[T])
        requires place { place < length self.old.rows }
        requires width { length row.now ≡ self.old.width }
        ensures { self.new ≡ record self.old { rows = slice_set self.old.rows place row.now } }
    {
        copy_row(
            self.cells.as_mut_slice(),
            self.width,
            self.count,
            place,
            row,
        );
    }

    /// Puts one value into each cell.
    pub fn clear(&mut self, value: T)
        ensures { self.new ≡ record self.old {
          rows = replicate (length self.old.rows) (replicate self.old.width value);
        } }
    {
        fill(self.cells.as_mut_slice(), value);
    }
}

// The place of a cell among all.
#[inline]
fn cell_of(width: usize, count: usize, place: usize, column: usize) -> usize
    requires width { width < 2 ^ 16 }
    requires count { count < 2 ^ 32 }
    requires place { place < count }
    requires column { column < width }
    ensures value { result ≡ width * place + column }
    ensures within { result < width * count }
{
    width * place + column
}

// The row at a place of so many rows.
#[inline]
fn row_in<T>(cells: &[T], width: usize, count: usize, place: usize) -> &[T]
    requires width { width < 2 ^ 16 }
    requires count { count < 2 ^ 32 }
    requires place { place < count }
    requires cells { length cells.now ≡ width * count }
    ensures { result.now ≡ slice_index_or (rows_of width count cells.now) place [] }
{
    let start = width * place;
    let (_, rest) = cells.split_at(start);
    let (row, _) = rest.split_at(width);
    row
}

// Copies a row to its place among so many rows.
#[inline]
fn copy_row<T: Copy>(cells: &mut [T], width: usize, count: usize, place: usize, row: &[T])
    requires width { width < 2 ^ 16 }
    requires count { count < 2 ^ 32 }
    requires place { place < count }
    requires cells { length cells.old ≡ width * count }
    requires row { length row.now ≡ width }
    ensures { rows_of width count cells.new
        ≡ slice_set (rows_of width count cells.old) place row.now }
{
    let start = width * place;
    cells[start..start + width].copy_from_slice(row);
}

// Puts one value into each cell.
fn fill<T: Copy>(cells: &mut [T], value: T)
    ensures { cells.new ≡ replicate (length cells.old) value }
{
    for cell in cells.iter_mut() {
        *cell = value;
    }
}
