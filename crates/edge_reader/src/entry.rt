ghost use Rattle.std.specs.Prelude.{◌≡◌};
ghost use Rattle.edge_reader.specs.Lines.{edge_of, entry_of_numbers};

use vert_base::{Edge, VertexId};

/// What a part of a file says: nothing, no edge, an edge whose numbers are too large, or an edge.
#[derive(Clone, Copy)]
pub enum Entry {
    Skipped,
    Malformed,
    TooLarge,
    Read(Edge),
}

/// A weight as it is written, of any size.
#[derive(Clone, Copy)]
pub struct Weight {
    pub negative: bool,
    pub size: u64,
}

impl Weight {
    /// The weight of an edge that says none.
    pub const ONE: Weight = Weight {
        negative: false,
        size: 1,
    };
}

impl Entry {
    /// The edge of these numbers, where each is one.
    pub fn from_numbers(from: Option<u64>, to: Option<u64>, weight: Option<Weight>) -> Entry
        ensures { result ≡ entry_of_numbers from to weight }
    {
        match (from, to, weight) {
            (Some(from), Some(to), Some(weight)) => Entry::from_edge(from, to, weight),
            _ => Entry::Malformed,
        }
    }

    fn from_edge(from: u64, to: u64, weight: Weight) -> Entry
        ensures { result ≡ edge_of from to weight }
    {
        let most = if weight.negative {
            2_147_483_648
        } else {
            2_147_483_647
        };
        if from > 4_294_967_295 || to > 4_294_967_295 || weight.size > most {
            return Entry::TooLarge;
        }
        let size = weight.size as i64;
        let weight = if weight.negative { -size } else { size };
        Entry::Read(Edge {
            from: VertexId(from as u32),
            to: VertexId(to as u32),
            weight: weight as i32,
        })
    }
}
