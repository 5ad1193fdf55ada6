ghost use Rattle.std.specs.Prelude.{◌≡◌};
ghost use Rattle.edge_reader.specs.declared.fault.EdgeFault.TheVariants.{Want};

use std::alloc::AllocError;

/// Why an edge file is refused, and where. Lines count from 1, bytes from 0. In a text the place is the
/// line; in a binary file it is the first byte of the unit.
///
/// | Code | Fault |
/// |---|---|
/// | 1 | a line that isn't two or three numbers |
/// | 2 | an id above 4,294,967,295, or a weight outside -2,147,483,648 to 2,147,483,647 |
/// | 3 | an id at or above the given number of vertices |
/// | 4 | an id at or above 2,097,152, where no number of vertices is given |
/// | 5 | more than 8,388,608 edges with those of this line or unit |
/// | 6 | a length that is no multiple of the unit: the first byte of the broken unit |
/// | 7 | more than 268,435,456 bytes: the first byte too many |
#[derive(Clone, Copy, Debug, PartialEq, Eq)]
pub enum EdgeFault {
    Line { code: u8, line: u32 },
    Byte { code: u8, at: u64 },
    Want,
}

impl From<AllocError> for EdgeFault {
    ghost from_gives = { λ _ fault. fault ≡ Want };

    fn from(_error: AllocError) -> EdgeFault {
        EdgeFault::Want
    }
}
