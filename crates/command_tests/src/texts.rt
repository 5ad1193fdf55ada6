//! The programs and graphs of the rows that are not among the shared samples.

/// Programs, each behind `$`, its name and a line end.
pub(super) static PROGRAMS: &str = "$ no_sparse
vertex 1;
mode auto;
limit 100;
field dist: int = id == 0 ? 0 : -1;
field parent: int = -1;
slot claim: first;
start id == 0;
dense when dist < 0 {
  for u {
    if u.active { emit claim u.id; break; }
  }
}
update {
  if claim.got { dist = round; parent = claim.value; active = true; }
}
$ dense_only
vertex 1;
mode dense;
limit 100;
field dist: int = id == 0 ? 0 : -1;
field parent: int = -1;
slot claim: first;
start id == 0;
dense when dist < 0 {
  for u {
    if u.active { emit claim u.id; break; }
  }
}
update {
  if claim.got { dist = round; parent = claim.value; active = true; }
}
$ early_total
vertex 2; mode dense; limit 1; field a: int = t; slot s: sum; total t: sum = 1; start true; dense when true { for u { } } update { }$ half
vertex 2;$ at
vertex 1;
mode @$ third
vertex 3; mode dense; limit 1;$ nothing
";

/// Samples with one change each: a name, the sample, what stands there and what comes in its place.
pub(super) static EDITS: &str = "dust | bfs | when dist | when dust
by_weight | k | c >= 2 { break | c >= w { break";

/// Graphs, each behind `$`, its name and a line end. Where a text begins with `hex`, its bytes follow.
pub(super) static GRAPHS: &str = "$ spread
# x\r
0\t1\r

0 2
  1 3
2 3$ units
hex 00 00 00 00 01 00 00 00 00 00 00 00 02 00 00 00 01 00 00 00 03 00 00 00 02 00 00 00 03 00 00 00$ remark
# no edges
$ weighted_units
hex 00 00 00 00 01 00 00 00 05 00 00 00 01 00 00 00 02 00 00 00 07 00 00 00 02 00 00 00 00 00 00 00 fd ff ff ff 00 00 00 00 02 00 00 00 04 00 00 00$ letter
0 x$ late_letter
0 1
0 2
1 3
3 x
$ units_and_more
hex 00 00 00 00 01 00 00 00 00 00 00 00 02 00 00 00 01 00 00 00 03 00 00 00 02 00 00 00 03 00 00 00 00$ four_words
0 1 2 3
$ far_unit
hex 00 00 00 00 00 00 20 00";
