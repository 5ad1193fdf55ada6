//! What the demonstration needs beside a run: the graph that a seed draws, a sink for a text that is
//! hashed piece by piece, and the lines that are shown.
#![tactic(auto)]

mod drawn;
mod lines;
mod text;

pub use drawn::{DRAWN_EDGES, DRAWN_VERTICES, drawn_edges};
pub use lines::write_shown;
pub use text::TextSink;
