//! The words that vertices draw.

use draw_source::draw;
use sample_programs::Cells;
use std::test::Fail;
use vert_base::VertexId;

/// A round, a vertex, a tag, and the word that is drawn there from 42. The first is the one that PCG publishes
/// for state 42 and stream 54; the others are those of streams 12884903175 and 8589935158 by its reference code.
static WORDS: &str = "\
0 | 0 | 54 | 2707161783
3 | 5 | 7 | 880107850
2 | 3 | 54 | 389222225";

#[test]
fn words(rt: HostRuntime) -> Result<(), Fail> {
    for line in WORDS.lines() {
        let mut cells = Cells::new(line);
        let round = cells.number()?;
        let v = VertexId(cells.number()?);
        let tag = cells.byte()?;
        assert!(rt; round <= 10_000 && v.0 < 1 << 24, "{line}");
        assert_eq!(rt; draw(42, round, v, tag), cells.number()?, "{line}");
    }
    Ok(())
}
