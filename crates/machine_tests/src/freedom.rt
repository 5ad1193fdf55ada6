//! Which programs don't depend on the order of neighbours.

use super::programs::split;
use order_free::{Freedom, free, order_free_programs};
use order_laws::{order_free_loops, order_free_runs};
use sample_programs::{Cells, edited};
use std::alloc::Global;
use std::test::Fail;

/// The answer, and a loop body of the frame.
static BODIES: &str = "\
reductions |
reductions | c += 1;
reductions | c += w; d min= u.id;
reductions | c += 1; c += w;
reductions | c += k;
reductions | emit s w;
reductions | if u.live { c += 1; } else { d max= u.x; }
reductions | if c >= 2 { d += 1; }
found-one | if true { break; }
found-one | if (u.live) { break; }
found-one | if draw(3) > 5 { break; }
found-one | if u.live { c = d; break; }
found-one | if w > 3 && u.x < k { emit s 1; c = 5; d = k; break; }
reach-a-count | if u.live { c += 1; if c >= 2 { break; } }
reach-a-count | if u.live { c += k; if c >= x { emit s c; d = c; break; } }
first slot f | emit f u.id;
first slot f | emit g 1; emit f 1;
first slot g | c = 1; emit g 1;
first slot g | if u.live { } else { emit g 1; }
loop | c = 1;
loop | c += c;
loop | c += 1; c max= w;
loop | c += 1; emit s c;
loop | break;
loop | if u.live { break; } c += 1;
loop | if u.live { emit s w; break; }
loop | if u.live { c = u.x; break; }
loop | if u.live { c = d; d = 1; break; }
loop | if u.live { c += 1; break; }
loop | if u.live { break; break; }
loop | if u.live { if w > 1 { break; } }
loop | if u.live { break; } else { }
loop | if c == 0 { c = 1; break; }
loop | if c < 5 { c += 1; if c >= 2 { break; } }
loop | c += 1; if c >= 2 { break; }
loop | if u.live { c += 1; if c > 2 { break; } }
loop | if u.live { c += 1; if 2 <= c { break; } }
loop | if u.live { c += 1; if (c >= 2) { break; } }
loop | if u.live { c += 1; if c >= w { break; } }
loop | if u.live { c += 1; if c >= c { break; } }
loop | if u.live { c += 1; if d >= 2 { break; } }
loop | if u.live { c += 1; if c >= d { d = 1; break; } }
loop | if u.live { c += 1; if c >= 2 { c = 0; break; } }
loop | if u.live { c += 1; if c >= 2 { d = c; emit s d; break; } }
loop | if u.live { c += 1; if c >= 2 { break; } else { } }
loop | if u.live { c += 1; if c >= 2 { break; } d = 1; }
loop | if u.live { c += w; if c >= 2 { break; } }
loop | if u.live { c = c + 1; if c >= 2 { break; } }
loop | if u.live { c max= 1; if c >= 2 { break; } }
found-one | if u.active { emit s 1; break; }
reach-a-count | if u.active { c += 1; if c >= 2 { break; } }
loop | if u.active { c += 1; if c >= w { break; } }
first slot f | if u.active { emit f 1; break; }";

/// A program with a place for a loop body.
static FRAME: &str = "vertex 1; mode dense; limit 1;
field x: int = id;
field live: bool = true;
slot s: sum;
slot f: first;
slot g: first;
start true;
dense when true {
  let c: int = 0;
  let d: int = 0;
  let k: int = 2;
  for u { BODY }
}
update { }
";

/// The answer, and what stands behind the mode of a program.
static PROGRAMS: &str = "\
no-loop | sparse; limit 1; slot s: sum; slot f: first; start true; sparse when true { emit s 1; } update { }
first slot f | sparse; limit 1; slot s: sum; slot f: first; start true; sparse when true { emit f 1; } update { }
reductions | dense; limit 1; slot f: first; start true; dense when true { for u { } emit f 1; } update { }
first slot g | auto; limit 1; slot s: sum; slot g: first; start true; dense when true { let c: int = 0; for u { c += 1; } } sparse when true { emit g 1; } update { }
reductions | dense; limit 1; start true; dense when true { for u { } } update { }";

/// The answer for a program as its text.
fn answer(alloc: Global, text: &str) -> Result<String, Fail> {
    let split = split(alloc, text)?;
    let word = match free(&split) {
        Freedom::NoLoop => "no-loop",
        Freedom::Reductions => "reductions",
        Freedom::FoundOne => "found-one",
        Freedom::ReachACount => "reach-a-count",
        Freedom::OtherLoop => "loop",
        Freedom::FirstSlot(place) => {
            let program = &split.program.program;
            let slot = program.slots.get(usize::from(place)).ok_or("no slot")?;
            let name = program.names.get(slot.name.name as usize).ok_or("no name")?;
            return Ok(format!(in alloc; "first slot {name}")?);
        }
    };
    Ok(String::from_str(alloc, word)?)
}

#[test]
fn forms_of_loops(rt: HostRuntime) -> Result<(), Fail> {
    order_free_loops();
    order_free_runs();
    order_free_programs();
    let alloc = rt.alloc();
    for line in BODIES.lines() {
        let mut cells = Cells::new(line);
        let wanted = cells.text();
        let text = edited(alloc, FRAME, "BODY", cells.text())?;
        assert_eq!(rt; answer(alloc, &text)?.as_str(), wanted, "{line}");
    }
    for line in PROGRAMS.lines() {
        let mut cells = Cells::new(line);
        let wanted = cells.text();
        let text = format!(in alloc; "vertex 1; mode {}", cells.text())?;
        assert_eq!(rt; answer(alloc, &text)?.as_str(), wanted, "{line}");
    }
    Ok(())
}
