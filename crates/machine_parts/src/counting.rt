// What a machine counts of its own rows.
ghost use Rattle.std.specs.Prelude.{◌≡◌, ◌≤◌, ◌<◌, ◌^◌, if◌then◌else◌, length, map, sum};
ghost use Rattle.std.specs.List.{range_with_len};
ghost use Rattle.vert_eval.specs.SourceRun.{active_vertices};
ghost use Rattle.machine_parts.specs.Counting.{edges_at};

use crate::rows::Rows;
use symple_face::Degree;

/// How many of the vertices are active.
pub fn active_rows(rows: &Rows) -> u64
    ensures active { result ≡ active_vertices rows.now.rows }
    ensures few { result ≤ length rows.now.rows }
{
    let mut active = 0;
    'places: for place in 0..rows.len() {
        active += one_if(rows.is_active(place));
    }
    active
}

fn one_if(flag: bool) -> u64
    ensures value { result ≡ (if flag then 1 else 0) }
    ensures small { result ≤ 1 }
{
    if flag { 1 } else { 0 }
}

/// How many edges leave the active ones of the vertices, given their degrees.
pub fn edges_ahead(rows: &Rows, degrees: &[Degree]) -> u64
    requires each { length degrees.now ≡ length rows.now.rows }
    requires few { length degrees.now < 2 ^ 31 }
    ensures { result
        ≡ sum (map (edges_at rows.now.rows degrees.now) (range_with_len 0 (length degrees.now))) }
{
    let mut edges = 0;
    'places: for place in 0..degrees.len() {
        edges += edges_if(rows.is_active(place), &degrees[place]);
    }
    edges
}

fn edges_if(active: bool, degree: &Degree) -> u64
    ensures value { result ≡ (if active then degree.now.outs else 0) }
    ensures small { result < 2 ^ 32 }
{
    if active { u64::from(degree.outs) } else { 0 }
}
