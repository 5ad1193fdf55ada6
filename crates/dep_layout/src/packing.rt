ghost use Rattle.std.specs.Prelude.{◌≡◌, ◌++◌, IfOk, OnOk, map};
ghost use Rattle.dep_layout.specs.Spelling.{mark_bytes, mark_of, sent_bytes, spelled};
ghost use Rattle.dep_layout.specs.States.{state_of, states_of};

use crate::marks::{mark_byte, mark_len};
use crate::state::{DepState, Mark};
use crate::words::push_words;
use std::alloc::Global;
use vert_base::Want;

/// The spelling of ring states.
pub fn pack<const W: usize>(alloc: Global, states: &[DepState<W>]) -> Result<Vec<u8>, Want>
    ensures { IfOk result (λ bytes. bytes.items ≡ spelled (states_of states.now)) }
{
    let mut bytes = marks_of(alloc, states)?;
    for state in states {
        push_sent(&mut bytes, state)?;
    }
    Ok(bytes)
}

// Writes what is sent of a vertex at the end of bytes: its words, where it is started.
fn push_sent<const W: usize>(bytes: &mut Vec<u8>, state: &DepState<W>) -> Result<(), Want>
    ensures { OnOk result (bytes.new.items ≡ bytes.old.items ++ sent_bytes (state_of state.now)) }
{
    match state.mark {
        Mark::Fresh => Ok(()),
        Mark::Running | Mark::Broken => push_words(bytes, &state.words),
    }
}

// The bytes of the marks.
fn marks_of<const W: usize>(alloc: Global, states: &[DepState<W>]) -> Result<Vec<u8>, Want>
    ensures { IfOk result (λ bytes. bytes.items ≡ mark_bytes (map mark_of (states_of states.now))) }
{
    let mut bytes = Vec::new(alloc);
    for at in 0..mark_len(states.len()) {
        bytes.push(mark_byte(states, 4 * at))?;
    }
    Ok(bytes)
}
