//! Lists of instructions while they are written.

ghost use Rattle.std.specs.Prelude.{◌≡◌, ◌<◌, [], ◌∷◌, ◌++◌, IfOk, OnOk, length, slice_set};

use crate::instr::Instr;
use vert_base::Want;

/// One more instruction.
pub(crate) fn put(list: &mut Vec<Instr>, instr: Instr) -> Result<(), Want>
    ensures { OnOk result (list.new.items ≡ list.old.items ++ instr ∷ []) }
{
    match list.push(instr) {
        Ok(()) => Ok(()),
        Err(_) => Err(Want),
    }
}

/// Writes an instruction at a place that there is.
pub(crate) fn write(list: &mut Vec<Instr>, place: usize, instr: Instr)
    requires { place < length list.old.items }
    ensures { list.new.items ≡ slice_set list.old.items place instr }
{
    list[place] = instr;
}

/// The place behind the last instruction as a target. A list that is too long for targets counts as
/// want of memory.
pub(crate) fn end_of(list: &Vec<Instr>) -> Result<u32, Want>
    ensures { IfOk result (λ target. target ≡ length list.now.items) }
{
    match u32::try_from(list.len()) {
        Ok(target) => Ok(target),
        Err(_) => Err(Want),
    }
}

/// One more list.
pub(crate) fn add(lists: &mut Vec<Vec<Instr>>, list: Vec<Instr>) -> Result<(), Want>
    ensures { OnOk result (lists.new.items ≡ lists.old.items ++ list ∷ []) }
{
    match lists.push(list) {
        Ok(()) => Ok(()),
        Err(_) => Err(Want),
    }
}
