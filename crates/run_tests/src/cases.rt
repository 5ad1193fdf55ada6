//! What a line of a table names: a program, a graph and how its edges are read.
ghost use Rattle.std.specs.Prelude.{IfOk};
ghost use Rattle.program_reader.specs.Accepted.{Says};

use chunk_split::{Cuts, cuts_of};
use edge_reader::{Edges, read_text};
use graph_table::Table;
use plain_run::{PlainRun, run_plainly};
use program_reader::read_program;
use sample_programs::{Cells, graph_named, program_named};
use std::alloc::{AllocError, Global};
use std::test::Fail;
use vert_base::limits::MACHINES;
use vert_tree::Typed;

/// The number from which draws come.
pub(crate) const DRAWS: u64 = 42;

/// A program and the text of a graph, which has so many vertices where that is given, and each of whose edges
/// may be followed by its reversal.
#[derive(Drop)]
pub(crate) struct Case {
    pub(crate) program: &'static str,
    graph: String,
    both: bool,
    vertices: Option<u32>,
}

/// A graph with weights of so many edges, from vertices and to vertices below these numbers. Some of them stand there more
/// than once, some are loops, and no edge leads from every other vertex or to the last ones.
fn mesh(alloc: Global, edges: u32, sources: u32, targets: u32) -> Result<String, AllocError> {
    let mut text = String::new(alloc);
    for edge in 0..edges {
        let from = edge.wrapping_mul(edge).checked_rem(sources).unwrap_or(0);
        let to = edge.wrapping_mul(7).checked_rem(targets).unwrap_or(0);
        let weight = edge % 9;
        text.push_str(&format!(in alloc; "{from} {to} {weight}\n")?)?;
    }
    Ok(text)
}

/// The case of a line: the program, the graph, `both` or nothing, and maybe how many vertices there are.
pub(crate) fn case_of(alloc: Global, line: &str) -> Result<Case, Fail> {
    let mut cells = Cells::new(line);
    let program = program_named(cells.text()).ok_or("no program")?;
    let graph = match cells.text() {
        "mesh" => mesh(alloc, 90, 23, 22)?,
        "crowd" => mesh(alloc, 20_000, 2999, 2990)?,
        name => String::from_str(alloc, graph_named(name).ok_or("no graph")?)?,
    };
    Ok(Case {
        program,
        graph,
        both: cells.is("both"),
        vertices: cells.number().ok(),
    })
}

pub(crate) fn typed_of(alloc: Global, case: &Case) -> Result<Typed, Fail>
    ensures { IfOk result (λ typed. Says case.now.program.now typed.program) }
{
    match read_program(alloc, case.program.as_bytes()) {
        Ok(typed) => Ok(typed),
        Err(_) => Err(Fail::from("no program")),
    }
}

pub(crate) fn edges_of(alloc: Global, case: &Case) -> Result<Edges, Fail> {
    let text = case.graph.as_bytes();
    match case.vertices {
        None => Ok(read_text(alloc, text, None, case.both)?),
        Some(vertices) => {
            if vertices > 1000 {
                return Err(Fail::from("too many vertices"));
            }
            Ok(read_text(alloc, text, Some(vertices), case.both)?)
        }
    }
}

/// The plain run of a case, in the order of reads that so many machines give.
pub(crate) fn plain_run_of(alloc: Global, case: &Case, machines: u8) -> Result<PlainRun, Fail> {
    if machines < 1 || machines > 64 {
        return Err(Fail::from("not so many machines"));
    }
    let typed = typed_of(alloc, case)?;
    let Ok(table) = Table::from_edges(alloc, edges_of(alloc, case)?) else {
        return Err(Fail::from("no table"));
    };
    let cuts: Cuts<MACHINES> = cuts_of(&table, machines);
    match run_plainly(alloc, &typed, &table, &cuts, DRAWS, true) {
        Ok(run) => Ok(run),
        Err(_) => Err(Fail::from("no run")),
    }
}
