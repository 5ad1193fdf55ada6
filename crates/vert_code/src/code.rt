ghost use Rattle.std.specs.Prelude.{◌≡◌, true, map};
ghost use Rattle.vert_code.specs.Valid.{is_valid};

use crate::instr::Instr;

/// The code of a program: four lists of instructions, in the order of `Block`. The list of a block
/// that the program hasn't is empty.
#[derive(Drop)]
pub struct Code {
    pub blocks: Vec<Vec<Instr>>,
    ghost valid: { is_valid (map (λ list. list.items) blocks.items) ≡ true },
}
