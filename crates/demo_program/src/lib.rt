//! The program that the demonstration runs, which is read from its text as any other.
#![tactic(auto)]

ghost use Rattle.std.specs.Prelude.{IfOk};
ghost use Rattle.demo_program.specs.DemoText.{demo_text};
ghost use Rattle.program_reader.specs.Accepted.{Says};

use program_reader::{ProgramFault, accepted_once, read_program};
use std::alloc::Global;
use vert_base::Want;
use vert_tree::Typed;

/// The text of the program: that of the example `bfs.vp` without its comment.
static TEXT: &str = "vertex 1;
mode auto;
limit 100;
field dist: int = id == 0 ? 0 : -1;
field parent: int = -1;
slot claim: first;
start id == 0;
dense when dist < 0 {
  for u {
    if u.active { emit claim u.id; break; }
  }
}
sparse when true {
  send from: int = id;
  if dist < 0 { emit claim from; }
}
update {
  if claim.got { dist = round; parent = claim.value; active = true; }
}
";

/// Reads the program. Nothing but memory can be wanting, since the text is a program.
pub fn demo_program(alloc: Global) -> Result<Typed, Want>
    ensures { IfOk result (λ typed. Says demo_text typed.program) }
{
    accepted_once();
    match read_program(alloc, TEXT.as_bytes()) {
        Ok(typed) => Ok(typed),
        Err(ProgramFault::Want) => Err(Want),
        Err(ProgramFault::Refused(_)) => unreachable!(),
    }
}
