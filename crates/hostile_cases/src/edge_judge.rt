//! A second reader of edge files, written from their rules alone. The files that it reads are far
//! too short for the limits of edges and of bytes.

use crate::bytes::four_at;
use std::alloc::{AllocError, Global};
use vert_base::limits::VERTICES;
use vert_base::{Edge, VertexId};

/// The edges of a file, and the greatest id plus 1.
#[derive(Drop)]
pub struct Graph {
    pub edges: Vec<Edge>,
    pub bound: u32,
}

/// Why a file is refused: the code and the line, or the code and the byte.
#[derive(Clone, Copy, PartialEq, Eq)]
pub enum Fault {
    Line(u8, u32),
    Byte(u8, u64),
}

/// What a line says.
enum Line {
    Nothing,
    Faulty(u8),
    Says(Edge),
}

impl Graph {
    fn add(&mut self, edge: Edge, both: bool) -> Result<(), AllocError> {
        let Edge { from, to, weight } = edge;
        self.bound = self
            .bound
            .max(from.0.saturating_add(1))
            .max(to.0.saturating_add(1));
        self.edges.push(edge)?;
        if both {
            let (from, to) = (to, from);
            self.edges.push(Edge { from, to, weight })?;
        }
        Ok(())
    }
}

/// The graph that lines of text say, or the first fault.
pub fn judge_text(
    alloc: Global,
    text: &[u8],
    vertices: Option<u32>,
    both: bool,
) -> Result<Result<Graph, Fault>, AllocError> {
    let mut graph = Graph {
        edges: Vec::new(alloc),
        bound: 0,
    };
    let mut number = 0u32;
    for line in text.split(|byte| *byte == b'\n') {
        number = number.saturating_add(1);
        match line_of(&words(alloc, line)?, vertices) {
            Line::Nothing => {}
            Line::Faulty(code) => return Ok(Err(Fault::Line(code, number))),
            Line::Says(edge) => graph.add(edge, both)?,
        }
    }
    Ok(Ok(graph))
}

/// The words of a line without its line feed.
fn words(alloc: Global, line: &[u8]) -> Result<Vec<&[u8]>, AllocError> {
    let line = line.strip_suffix(b"\r").unwrap_or(line);
    let mut words = Vec::new(alloc);
    for word in line.split(|byte| *byte == b' ' || *byte == b'\t') {
        if !word.is_empty() {
            words.push(word)?;
        }
    }
    Ok(words)
}

fn line_of(words: &[&[u8]], vertices: Option<u32>) -> Line {
    match words {
        [] => Line::Nothing,
        [first, ..] if first.starts_with(b"#") => Line::Nothing,
        [from, to] => edge_of(number(from), number(to), Some(1), vertices),
        [from, to, weight] => edge_of(number(from), number(to), signed(weight), vertices),
        _ => Line::Faulty(1),
    }
}

/// The number of a word that is digits; one that is too large for all uses is the greatest.
fn number(word: &[u8]) -> Option<i64> {
    if word.is_empty() || !word.iter().all(|byte| byte.is_ascii_digit()) {
        return None;
    }
    let mut value = 0i64;
    for digit in word {
        value = value
            .saturating_mul(10)
            .saturating_add(i64::from(*digit & 15));
    }
    Some(value)
}

fn signed(word: &[u8]) -> Option<i64> {
    match word {
        [b'-', digits @ ..] => Some(number(digits)?.saturating_neg()),
        _ => number(word),
    }
}

/// The edge of three numbers, or the least code that refuses it.
fn edge_of(from: Option<i64>, to: Option<i64>, weight: Option<i64>, vertices: Option<u32>) -> Line {
    let (Some(from), Some(to), Some(weight)) = (from, to, weight) else {
        return Line::Faulty(1);
    };
    let (Ok(from), Ok(to), Ok(weight)) = (
        u32::try_from(from),
        u32::try_from(to),
        i32::try_from(weight),
    ) else {
        return Line::Faulty(2);
    };
    let most = from.max(to);
    match vertices {
        Some(count) if most >= count => Line::Faulty(3),
        None if most >= VERTICES => Line::Faulty(4),
        _ => Line::Says(Edge {
            from: VertexId(from),
            to: VertexId(to),
            weight,
        }),
    }
}

/// The graph that units of bytes say, or the first fault.
pub fn judge_pairs(
    alloc: Global,
    bytes: &[u8],
    weighted: bool,
    both: bool,
) -> Result<Result<Graph, Fault>, AllocError> {
    let size = if weighted { 12 } else { 8 };
    let whole = bytes.len() - bytes.len() % size;
    if whole != bytes.len() {
        return Ok(Err(Fault::Byte(6, whole as u64)));
    }
    let mut graph = Graph {
        edges: Vec::new(alloc),
        bound: 0,
    };
    let mut place = 0u64;
    for unit in bytes.chunks_exact(size) {
        let edge = edge_in(unit);
        if edge.from.0.max(edge.to.0) >= VERTICES {
            return Ok(Err(Fault::Byte(4, place)));
        }
        graph.add(edge, both)?;
        place = place.saturating_add(size as u64);
    }
    Ok(Ok(graph))
}

/// The edge in a unit, whose weight is 1 where it has none.
fn edge_in(unit: &[u8]) -> Edge {
    let number = |place| four_at(unit, place).unwrap_or(0);
    let weight = four_at(unit, 8).unwrap_or(1);
    Edge {
        from: VertexId(number(0)),
        to: VertexId(number(4)),
        weight: weight.cast_signed(),
    }
}
