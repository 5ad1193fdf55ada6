use vert_base::Span;

/// Which reader of programs refused one.
#[derive(Clone, Copy, Debug, PartialEq, Eq)]
pub enum Stage {
    Tokens,
    Grammar,
    Typing,
}

/// Why a text is no program, and where. The number is that of the code, as 1 in `L1`, `P1` and `Y1`.
#[derive(Clone, Copy, Debug, PartialEq, Eq)]
pub struct Refusal {
    pub stage: Stage,
    pub number: u8,
    pub span: Span,
}

/// Why a text gives no program.
#[derive(Clone, Copy, Debug, PartialEq, Eq)]
pub enum ProgramFault {
    Refused(Refusal),
    Want,
}
