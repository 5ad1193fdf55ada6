//! Machines that lie about the first field of each row: what is printed is what they tell, not the
//! source's run.

use crate::files::{shelf, told};
use crate::play::Otherwise;
use lying_site::Lying;
use machine_core::Core;
use sample_programs::{Cells, graph_named, plain, program_named};
use std::alloc::Global;

/// A case of which the cells tell a program, a graph, lines that semicolons part, and what each of
/// them prints.
pub fn lying(alloc: Global, cells: &mut Cells<'_>) -> Result<(), Otherwise> {
    let program = program_named(cells.text()).unwrap_or("");
    let graph = graph_named(cells.text()).unwrap_or("");
    let mut shelf = shelf(alloc, program, graph, Vec::new(alloc))?;
    let lines = cells.text();
    let wanted = plain(alloc, cells.text())?;
    for line in lines.split(';') {
        let text = told::<Lying<Core>>(alloc, line, &mut shelf)?;
        if text.as_str() != wanted.as_str() {
            return Err(Otherwise::Told("a line prints otherwise than what the machines tell"));
        }
    }
    Ok(())
}
