use vert_tree::{AssignOp, BinOp, Builtin};

/// One instruction. A value is pushed on a stack, and an operator takes its operands from there.
/// A jump names the place in its list where the run goes on.
#[derive(Clone, Copy, Debug, PartialEq, Eq)]
pub enum Instr {
    Push(i64),
    Word(Builtin),
    Field(u8),
    Local(u8),
    Sent(u8),
    Total(u8),
    Got(u8),
    Value(u8),
    OtherField(u8),
    OtherWord(Builtin),
    Draw(u8),
    Neg,
    Not,
    Op(BinOp),
    Least,
    Greatest,
    ToLocal(AssignOp, u8),
    ToField(AssignOp, u8),
    ToActive,
    Emit(u8),
    Jump(u32),
    /// Takes the topmost value and jumps where it is 0.
    JumpUnless(u32),
    Break,
}

/// A block of a program that runs as code. `Loop` is the loop body.
#[derive(Clone, Copy, Debug, PartialEq, Eq)]
pub enum Block {
    Loop,
    Tail,
    SparseBody,
    UpdateBody,
}
