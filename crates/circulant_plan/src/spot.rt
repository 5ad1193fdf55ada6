/// How many machines stand in the ring, and whether the loop of the program carries a state.
#[derive(Clone, Copy, Debug, PartialEq, Eq)]
pub struct Ring {
    pub machines: u8,
    pub carry: bool,
}

/// Where a machine stands in its list of actions. Steps, halves and machines count from 0; the first
/// round that is begun is 1, and machine 0 judges before it with round 0.
#[derive(Clone, Copy, Debug, PartialEq, Eq)]
pub enum Spot {
    Tell,
    Judge { round: u32 },
    Begin { round: u32 },
    Scan { round: u32, step: u8, half: u8 },
    Close { round: u32, dense: bool },
    Over,
}
