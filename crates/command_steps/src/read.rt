ghost use Rattle.std.specs.Prelude.{◌≤◌};
ghost use Rattle.edge_reader.specs.Gives.{Gives};
ghost use Rattle.command_steps.specs.Commands.{graph_of};
ghost use Rattle.command_steps.specs.FileWalks.{GivesGraphBytes, GivesProgramText, GivesSources};
ghost use Rattle.command_steps.specs.States.{shelf_state};
ghost use Rattle.command_steps.specs.Walks.{GivesBoth, GivesGraph, GivesProgram};
ghost use Rattle.symple_words.specs.Ranges.{IsGraphForm};

use crate::failure::Failure;
use edge_reader::{EdgeFault, Edges, read_pairs, read_text};
use outside::{LoadFault, Shelf};
use program_reader::{ProgramFault, Refusal, Stage, read_program};
use std::alloc::Global;
use symple_words::GraphForm;
use vert_base::Span;
use vert_base::limits::{GRAPH_BYTES, PROGRAM_BYTES};
use vert_tree::Typed;

/// What is said of a text that is too long.
const TOO_LONG: Refusal = Refusal {
    stage: Stage::Tokens,
    number: 3,
    span: Span {
        at: 0,
        line: 1,
        column: 1,
    },
};

/// Loads and reads the program of that name, and gives its text too.
///
/// The failure's name is taken before the load, so that a load that fails needs no memory to say so.
pub fn load_program_text<H: Shelf>(
    alloc: Global,
    shelf: &mut H,
    name: &str,
) -> Result<(Vec<u8>, Typed), Failure>
    ensures program { GivesProgramText (shelf_state H.files H.loads H.stores shelf.old)
        (shelf_state H.files H.loads H.stores shelf.new) name.now result }
    ensures later { H.loads shelf.old ≤ H.loads shelf.new }
{
    let unread = String::from_str(alloc, name)?;
    let text = match shelf.load(alloc, name, PROGRAM_BYTES) {
        Ok(text) => text,
        Err(LoadFault::TooLong) => return Err(Failure::Program(TOO_LONG)),
        Err(LoadFault::Want) => return Err(Failure::Memory),
        Err(LoadFault::Failed) => return Err(Failure::Load(unread)),
        Err(LoadFault::Missing) => return Err(Failure::Load(unread)),
    };
    match read_program(alloc, &text) {
        Ok(typed) => Ok((text, typed)),
        Err(ProgramFault::Refused(refusal)) => Err(Failure::Program(refusal)),
        Err(ProgramFault::Want) => Err(Failure::Memory),
    }
}

/// Loads and reads the program of that name.
pub fn load_program<H: Shelf>(alloc: Global, shelf: &mut H, name: &str) -> Result<Typed, Failure>
    ensures program { GivesProgram (shelf_state H.files H.loads H.stores shelf.old)
        (shelf_state H.files H.loads H.stores shelf.new) name.now result }
    ensures later { H.loads shelf.old ≤ H.loads shelf.new }
{
    let (_text, typed) = load_program_text(alloc, shelf, name)?;
    Ok(typed)
}

/// Reads the bytes of a graph.
fn read_graph(alloc: Global, form: &GraphForm, bytes: &[u8]) -> Result<Edges, EdgeFault>
    requires { IsGraphForm form.now }
    ensures { Gives (graph_of form.now bytes.now) result }
{
    if form.binary {
        read_pairs(alloc, bytes, form.weighted, form.both)
    } else {
        read_text(alloc, bytes, form.vertices, form.both)
    }
}

/// Loads and reads the graph of that name, and gives its bytes too.
fn load_graph_bytes<H: Shelf>(
    alloc: Global,
    shelf: &mut H,
    form: &GraphForm,
    name: &str,
) -> Result<(Vec<u8>, Edges), Failure>
    requires { IsGraphForm form.now }
    ensures graph { GivesGraphBytes (shelf_state H.files H.loads H.stores shelf.old)
        (shelf_state H.files H.loads H.stores shelf.new) form.now name.now result }
    ensures later { H.loads shelf.old ≤ H.loads shelf.new }
{
    let unread = String::from_str(alloc, name)?;
    let bytes = match shelf.load(alloc, name, GRAPH_BYTES) {
        Ok(bytes) => bytes,
        Err(LoadFault::TooLong) => {
            return Err(Failure::GraphByte {
                code: 7,
                at: GRAPH_BYTES,
            });
        }
        Err(LoadFault::Want) => return Err(Failure::Memory),
        Err(LoadFault::Failed) => return Err(Failure::Load(unread)),
        Err(LoadFault::Missing) => return Err(Failure::Load(unread)),
    };
    match read_graph(alloc, form, &bytes) {
        Ok(edges) => Ok((bytes, edges)),
        Err(EdgeFault::Line { code, line }) => Err(Failure::GraphLine { code, line }),
        Err(EdgeFault::Byte { code, at }) => Err(Failure::GraphByte { code, at }),
        Err(EdgeFault::Want) => Err(Failure::Memory),
    }
}

/// Loads and reads the graph of that name.
pub fn load_graph<H: Shelf>(
    alloc: Global,
    shelf: &mut H,
    form: &GraphForm,
    name: &str,
) -> Result<Edges, Failure>
    requires { IsGraphForm form.now }
    ensures graph { GivesGraph (shelf_state H.files H.loads H.stores shelf.old)
        (shelf_state H.files H.loads H.stores shelf.new) form.now name.now result }
    ensures later { H.loads shelf.old ≤ H.loads shelf.new }
{
    let (_bytes, edges) = load_graph_bytes(alloc, shelf, form, name)?;
    Ok(edges)
}

/// Loads and reads the program and the graph of a run.
pub fn load_both<H: Shelf>(
    alloc: Global,
    shelf: &mut H,
    program: &str,
    form: &GraphForm,
    graph: &str,
) -> Result<(Typed, Edges), Failure>
    requires { IsGraphForm form.now }
    ensures both { GivesBoth (shelf_state H.files H.loads H.stores shelf.old)
        (shelf_state H.files H.loads H.stores shelf.new) program.now form.now graph.now result }
    ensures later { H.loads shelf.old ≤ H.loads shelf.new }
{
    let typed = load_program(alloc, shelf, program)?;
    let edges = load_graph(alloc, shelf, form, graph)?;
    Ok((typed, edges))
}

/// What the two files of a run say, and the bytes that say it.
#[derive(Drop)]
pub struct Sources {
    pub program: Vec<u8>,
    pub graph: Vec<u8>,
    pub typed: Typed,
    pub edges: Edges,
}

/// Loads and reads the program and the graph of a run, and gives the bytes of both files too.
pub fn load_sources<H: Shelf>(
    alloc: Global,
    shelf: &mut H,
    program: &str,
    form: &GraphForm,
    graph: &str,
) -> Result<Sources, Failure>
    requires { IsGraphForm form.now }
    ensures both { GivesSources (shelf_state H.files H.loads H.stores shelf.old)
        (shelf_state H.files H.loads H.stores shelf.new) program.now form.now graph.now result }
    ensures later { H.loads shelf.old ≤ H.loads shelf.new }
{
    let (text, typed) = load_program_text(alloc, shelf, program)?;
    let (bytes, edges) = load_graph_bytes(alloc, shelf, form, graph)?;
    Ok(Sources {
        program: text,
        graph: bytes,
        typed,
        edges,
    })
}
