ghost use Rattle.std.specs.Prelude.{◌≡◌, true};
ghost use Rattle.vert_tree.specs.Typed.{is_typed};

use super::Program;

/// A program in which every name has its place and every expression its type.
#[derive(Drop)]
pub struct Typed {
    pub program: Program,
    ghost typed: { is_typed program ≡ true },
}
