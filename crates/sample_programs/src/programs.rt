//! The example programs, each by the name of its file.

/// Breadth first search.
pub static BFS: &str = "vertex 1;
mode auto;
limit 100;
field dist: int = id == 0 ? 0 : -1;
field parent: int = -1;
slot claim: first;
start id == 0;
dense when dist < 0 {
  for u {
    if u.active { emit claim u.id; break; }
  }
}
sparse when true {
  send from: int = id;
  if dist < 0 { emit claim from; }
}
update {
  if claim.got { dist = round; parent = claim.value; active = true; }
}
";

/// A draw for each vertex.
pub static DICE: &str = "vertex 1; mode dense; limit 0;
field d: int = draw(54);
start true;
dense when true { for u { } }
update { }
";

/// The first neighbour that a vertex reads.
pub static FIRST: &str = "vertex 1; mode dense; limit 1;
field pick: int = -1;
slot seen: first;
start true;
dense when true { for u { emit seen u.id; break; } }
update { if seen.got { pick = seen.value; } }
";

/// The program of `FIRST` with no round.
pub static FIRST0: &str = "vertex 1; mode dense; limit 0;
field pick: int = -1;
slot seen: first;
start true;
dense when true { for u { emit seen u.id; break; } }
update { if seen.got { pick = seen.value; } }
";

/// A count that goes down until its total is below 2.
pub static HALVE: &str = "vertex 2; mode dense; limit 10;
field c: int = 1;
slot a: sum;
total t: sum = c;
start true;
dense when true { for u { emit a u.c; } }
update { c = a.value; active = true; }
stop t < 2;
";

/// The weight of the first edge that a vertex reads.
pub static HEAVY: &str = "vertex 1; mode dense; limit 1;
field pick: int = -1;
slot seen: first;
start true;
dense when true { for u { emit seen w; } }
update { if seen.got { pick = seen.value; } }
";

/// Vertices that keep two neighbours alive.
pub static K: &str = "vertex 1; mode dense; limit 100;
field alive: bool = true;
slot weak: sum;
start true;
dense when alive {
  let c: int = 0;
  for u { if u.alive { c += 1; if c >= 2 { break; } } }
  if c < 2 { emit weak 1; }
}
update { if weak.got { alive = false; active = true; } }
";

/// A neighbour drawn by its place.
pub static SAMPLE: &str = "vertex 1; mode dense; limit 1;
field pick: int = -1;
slot seen: first;
start true;
dense when true {
  let left: int = draw(0) % indeg;
  for u {
    if left == 0 { emit seen u.id; break; }
    left = left - 1;
  }
}
update { if seen.got { pick = seen.value; } }
";

/// The sum of the weights of the edges into a vertex.
pub static SUM: &str = "vertex 1; mode dense; limit 1;
field mass: int = 0;
slot acc: sum;
start true;
dense when true {
  let s: int = 0;
  for u { s += w; }
  emit acc s;
}
update { mass = acc.value; }
";

/// A sum beyond the greatest number.
pub static WRAP: &str = "vertex 1; mode dense; limit 1;
field x: int = id == 0 ? 9223372036854775807 : 1;
slot acc: sum;
start true;
dense when id == 2 { for u { emit acc u.x; } }
update { if acc.got { x = acc.value; } }
";

/// Whether a vertex was sent anything, though it be 0.
pub static ZERO: &str = "vertex 1; mode dense; limit 1;
field a: bool = false;
slot z: sum;
start true;
dense when true { for u { emit z u.id; } }
update { a = z.got; }
";
