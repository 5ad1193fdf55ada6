/// What a message tells, in the order of names.
#[derive(Clone, Copy, Debug, PartialEq, Eq, PartialOrd, Ord)]
pub enum NameKind {
    Refresh,
    Dep,
    Update,
    Push,
    Tally,
    Verdict,
}

/// The name of a message. Names are ordered by these fields in turn. A kind without step and half
/// has 0 there.
#[derive(Clone, Copy, Debug, PartialEq, Eq, PartialOrd, Ord)]
pub struct Name {
    pub kind: NameKind,
    pub round: u32,
    pub step: u8,
    pub half: u8,
    pub from: u8,
    pub to: u8,
}

/// One atomic step of a run: a machine performs its action, or a message is delivered.
#[derive(Clone, Copy, Debug, PartialEq, Eq)]
pub enum Event {
    Go(u8),
    Take(Name),
}

/// A message on its way: its name and the bytes of its body.
#[derive(Debug, Drop)]
pub struct Message {
    pub name: Name,
    pub body: Vec<u8>,
}
