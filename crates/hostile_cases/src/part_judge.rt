//! A second judge of part files, written from their rules alone.

use crate::bytes::four_at;
use std::alloc::{AllocError, Global};
use vert_base::limits::{EDGES, MACHINES, VERTICES};

/// What a file is: one with a fault K1 to K3 of this number, or one with the text of a program,
/// which K4 is about.
#[derive(Clone, Copy)]
pub enum Judged<'a> {
    Faulty(u8),
    Holds(&'a [u8]),
}

/// The sections of a file.
#[derive(Clone, Copy)]
struct Sections<'a> {
    head: &'a [u8],
    ends: &'a [u8],
    program: &'a [u8],
    scan: &'a [u8],
    push: &'a [u8],
    degrees: &'a [u8],
}

/// The bytes that are still to be cut into sections.
#[derive(Drop)]
struct Rest<'a> {
    bytes: &'a [u8],
}

impl<'a> Rest<'a> {
    fn section(&mut self, len: usize) -> Option<&'a [u8]> {
        let (section, behind) = self.bytes.split_at_checked(len)?;
        self.bytes = behind;
        Some(section)
    }

    /// Items of so many bytes behind their count.
    fn items(&mut self, size: usize) -> Option<&'a [u8]> {
        let count = four_at(self.section(4)?, 0)?;
        self.section(size.saturating_mul(count as usize))
    }
}

/// The sections, where the length is the one that the counts give.
fn sections_of(bytes: &[u8]) -> Option<Sections<'_>> {
    let mut rest = Rest { bytes };
    let head = rest.section(22)?;
    let machines = head.get(5).copied().unwrap_or(0);
    let ends = rest.section(usize::from(machines).saturating_mul(4))?;
    let program = rest.items(1)?;
    let scan = rest.items(12)?;
    let push = rest.items(12)?;
    let degrees = rest.items(12)?;
    if !rest.bytes.is_empty() {
        return None;
    }
    Some(Sections {
        head,
        ends,
        program,
        scan,
        push,
        degrees,
    })
}

/// The numbers of a file. An item of a list is the source, the target and the weight of an edge, or
/// a vertex with its degrees.
#[derive(Drop)]
struct Numbers {
    machine: u8,
    machines: u8,
    vertices: u32,
    edges: u32,
    ends: Vec<u32>,
    scan: Vec<[u32; 3]>,
    push: Vec<[u32; 3]>,
    degrees: Vec<[u32; 3]>,
}

fn numbers_of(alloc: Global, sections: &Sections<'_>) -> Result<Numbers, AllocError> {
    let head = sections.head;
    let mut ends = Vec::new(alloc);
    for end in sections.ends.chunks_exact(4) {
        ends.push(four_at(end, 0).unwrap_or(0))?;
    }
    Ok(Numbers {
        machine: head.get(4).copied().unwrap_or(0),
        machines: head.get(5).copied().unwrap_or(0),
        vertices: four_at(head, 14).unwrap_or(0),
        edges: four_at(head, 18).unwrap_or(0),
        ends,
        scan: list_in(alloc, sections.scan)?,
        push: list_in(alloc, sections.push)?,
        degrees: list_in(alloc, sections.degrees)?,
    })
}

fn list_in(alloc: Global, bytes: &[u8]) -> Result<Vec<[u32; 3]>, AllocError> {
    let mut list = Vec::new(alloc);
    for item in bytes.chunks_exact(12) {
        let number = |place| four_at(item, place).unwrap_or(0);
        list.push([number(0), number(4), number(8)])?;
    }
    Ok(list)
}

impl Numbers {
    /// The first vertex of the machine's chunk and the one behind its last.
    fn chunk(&self) -> (u32, u32) {
        let end = |place: u8| self.ends.get(usize::from(place)).copied().unwrap_or(0);
        match self.machine.checked_sub(1) {
            None => (0, end(0)),
            Some(before) => (end(before), end(self.machine)),
        }
    }

    fn owns(&self, vertex: u32) -> bool {
        let (start, end) = self.chunk();
        start <= vertex && vertex < end
    }

    fn is_placed(&self) -> bool {
        self.machine < self.machines
            && usize::from(self.machines) <= MACHINES
            && self.vertices <= VERTICES
            && self.edges <= EDGES
            && is_ordered(&self.ends)
            && self.ends.last().copied() == Some(self.vertices)
    }

    fn has_edges(&self) -> bool {
        let most = self.edges as usize;
        self.scan.len() <= most
            && self.push.len() <= most
            && are_ordered(&self.scan, 1, 0)
            && are_ordered(&self.push, 0, 1)
            && self
                .scan
                .iter()
                .all(|[from, to, _]| self.owns(*from) && *to < self.vertices)
            && self
                .push
                .iter()
                .all(|[from, to, _]| self.owns(*to) && *from < self.vertices)
    }

    /// Whether the degrees are those of the own vertices and of the other ones to which an edge of
    /// `scan` leads, each once and ascending.
    fn has_degrees(&self) -> bool {
        let (start, end) = self.chunk();
        let owned = self
            .degrees
            .iter()
            .filter(|[id, _, _]| self.owns(*id))
            .count();
        owned == end.saturating_sub(start) as usize
            && self.degrees.windows(2).all(|pair| pair[0][0] < pair[1][0])
            && self.degrees.iter().all(|item| self.is_degree(item))
            && self
                .scan
                .iter()
                .all(|[_, to, _]| self.owns(*to) || self.has_degree(*to))
    }

    fn has_degree(&self, vertex: u32) -> bool {
        self.degrees.iter().any(|[id, _, _]| *id == vertex)
    }

    fn is_degree(&self, item: &[u32; 3]) -> bool {
        let [id, ins, outs] = *item;
        if !self.owns(id) {
            return self.scan.iter().any(|[_, to, _]| *to == id);
        }
        self.push.iter().filter(|[_, to, _]| *to == id).count() == ins as usize
            && self.scan.iter().filter(|[from, _, _]| *from == id).count() == outs as usize
    }
}

fn is_ordered(ends: &[u32]) -> bool {
    ends.windows(2).all(|pair| pair[0] <= pair[1])
}

/// Whether items are ordered by the number at one place, and equal ones by that at another.
fn are_ordered(list: &[[u32; 3]], major: usize, minor: usize) -> bool {
    let at = |item: &[u32; 3], place: usize| item.get(place).copied().unwrap_or(0);
    list.windows(2).all(|pair| {
        let (before, after) = (at(&pair[0], major), at(&pair[1], major));
        before < after || before == after && at(&pair[0], minor) <= at(&pair[1], minor)
    })
}

/// Judges a file up to its program.
pub fn judge_part<'a>(alloc: Global, bytes: &'a [u8]) -> Result<Judged<'a>, AllocError> {
    if !bytes.starts_with(b"SGP1") {
        return Ok(Judged::Faulty(1));
    }
    let Some(sections) = sections_of(bytes) else {
        return Ok(Judged::Faulty(2));
    };
    let numbers = numbers_of(alloc, &sections)?;
    if numbers.is_placed() && numbers.has_edges() && numbers.has_degrees() {
        return Ok(Judged::Holds(sections.program));
    }
    Ok(Judged::Faulty(3))
}
