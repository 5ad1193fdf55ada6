//! Programs beside the examples, of constructs that those lack.

/// Each class of lets, each combination of slots and both sorts of loops.
pub static EVERY_CLASS: &str = "// every class of let
vertex 2; mode auto; limit 0012;
field mass: int = id * 2 - 1;
field alive: bool = !(id == 3) || n > 007;
slot near: min;
slot far: max;
slot all: sum;
slot one: first;
total t: sum = active ? mass : -1;
total most: max = min(mass, indeg);
start id < n && draw(7) >= 0;
dense when alive && t != 0 {
  let own: int = mass + t;
  let flag: bool = active;
  let weights: int = 0;
  let low: int = 100;
  let high: int = 0 - 100;
  let count: int = 0;
  let mixed: int = 1;
  let last: int = id;
  for u {
    if u.active && !flag {
      weights += w * own;
      low min= u.mass;
      if u.mass > own {
        high max= max(u.mass, u.outdeg);
        count += 1;
        if count >= own { mixed += 1; emit all count % 3; }
        else { mixed min= 2; emit near last; }
      } else {
        if flag { emit one u.id; break; }
      }
    }
    last = u.id;
  }
  emit far weights;
  if low < 100 { emit all (low + high) / 2; } else { low = 0; }
}
sparse when alive {
  send mine: int = mass;
  send sure: bool = alive;
  if sure { emit near mine + w; }
}
update {
  if near.got && all.value <= 5 { mass min= near.value; active = !active; }
  else { mass max= far.value; alive = one.got; }
}
stop most == t || round > 3;
";

/// A program without a loop over neighbours.
pub static SPARSE_ONLY: &str =
    "vertex 1; mode sparse; limit 2; field a: int = id; slot s: sum; start true;
sparse when true { send p: int = a; emit s p; }
update { a += s.value; }
";

/// Emits to two slots, from both sorts of blocks.
pub static TWO_SORTS: &str =
    "vertex 1; mode auto; limit 2; field a: int = id; slot s: sum; slot o: first; start true;
dense when true { let c: int = 0; for u { c += w; } emit s c; }
sparse when true { send p: int = a; if p > 0 { emit s p; } else { emit o p; } }
update { a += s.value; }
";
