// The bytes of a part file.
ghost use Rattle.std.specs.Prelude.{◌≡◌, ◌++◌, ◌<◌, ◌≤◌, ◌^◌, IfOk, OnOk, length};
ghost use Rattle.std.specs.List.{All, flat_map};
ghost use Rattle.program_reader.specs.Accepted.{Says};
ghost use Rattle.symple_face.specs.PartViews.{plain_of};
ghost use Rattle.vert_base.specs.HeaderBytes.{four_bytes};
ghost use Rattle.worker_stream.specs.Back.{IsWritable};
ghost use Rattle.worker_stream.specs.PartFiles.{behind_count, degree_bytes, edge_bytes, eight_bytes, head_bytes, spelled_part};

use crate::sections::MAGIC;
use state_laws::degrees_are_counts;
use std::alloc::{AllocError, Global};
use symple_face::{Degree, Part};
use vert_base::{Edge, Want};
use word_kinds::edges_have_weights;

#[tactic(auto, unfolding(vert_base::specs::HeaderBytes::four_bytes))]
fn push_four(out: &mut Vec<u8>, number: u32) -> Result<(), AllocError>
    ensures { OnOk result (out.new.items ≡ out.old.items ++ four_bytes number) }
{
    out.extend_from_slice(&number.to_le_bytes())
}

fn push_edge(out: &mut Vec<u8>, edge: &Edge) -> Result<(), AllocError>
    ensures { OnOk result (out.new.items ≡ out.old.items ++ edge_bytes edge.now) }
{
    push_four(out, edge.from.0)?;
    push_four(out, edge.to.0)?;
    push_four(out, edge.weight.cast_unsigned())
}

fn push_degree(out: &mut Vec<u8>, degree: &Degree) -> Result<(), AllocError>
    ensures { OnOk result (out.new.items ≡ out.old.items ++ degree_bytes degree.now) }
{
    push_four(out, degree.id.0)?;
    push_four(out, degree.ins)?;
    push_four(out, degree.outs)
}

fn push_edges(out: &mut Vec<u8>, edges: &[Edge]) -> Result<(), AllocError>
    ensures { OnOk result (out.new.items ≡ out.old.items ++ flat_map edge_bytes edges.now) }
{
    for edge in edges {
        push_edge(out, edge)?;
    }
    Ok(())
}

fn push_degrees(out: &mut Vec<u8>, degrees: &[Degree]) -> Result<(), AllocError>
    ensures { OnOk result (out.new.items ≡ out.old.items ++ flat_map degree_bytes degrees.now) }
{
    for degree in degrees {
        push_degree(out, degree)?;
    }
    Ok(())
}

fn push_ends(out: &mut Vec<u8>, ends: &[u32]) -> Result<(), AllocError>
    ensures { OnOk result (out.new.items ≡ out.old.items ++ flat_map four_bytes ends.now) }
{
    for end in ends {
        push_four(out, *end)?;
    }
    Ok(())
}

#[tactic(auto, unfolding(crate::specs::PartFiles::eight_bytes))]
fn push_eight(out: &mut Vec<u8>, number: u64) -> Result<(), AllocError>
    ensures { OnOk result (out.new.items ≡ out.old.items ++ eight_bytes number) }
{
    out.extend_from_slice(&number.to_le_bytes())
}

// The numbers that stand once.
fn push_head(out: &mut Vec<u8>, part: &Part) -> Result<(), AllocError>
    ensures { OnOk result (out.new.items ≡ out.old.items ++ head_bytes (plain_of part.now)) }
{
    out.extend_from_slice(&MAGIC)?;
    out.extend_from_slice(&[part.at.number(), part.at.count()])?;
    push_eight(out, part.draws)?;
    push_four(out, part.cuts.end(part.cuts.count() - 1))?;
    push_four(out, part.edges)
}

// The program's text behind its length.
fn push_text(out: &mut Vec<u8>, text: &[u8]) -> Result<(), AllocError>
    requires { length text.now < 2 ^ 32 }
    ensures { OnOk result (out.new.items
        ≡ out.old.items ++ behind_count (length text.now) text.now) }
{
    push_four(out, text.len() as u32)?;
    out.extend_from_slice(text)
}

// Edges behind their count.
fn push_counted_edges(out: &mut Vec<u8>, edges: &[Edge]) -> Result<(), AllocError>
    requires { length edges.now < 2 ^ 32 }
    ensures { OnOk result (out.new.items ≡ out.old.items
        ++ behind_count (length edges.now) (flat_map edge_bytes edges.now)) }
{
    push_four(out, edges.len() as u32)?;
    push_edges(out, edges)
}

// Degrees behind their count.
fn push_counted_degrees(out: &mut Vec<u8>, degrees: &[Degree]) -> Result<(), AllocError>
    requires { length degrees.now < 2 ^ 32 }
    ensures { OnOk result (out.new.items ≡ out.old.items
        ++ behind_count (length degrees.now) (flat_map degree_bytes degrees.now)) }
{
    push_four(out, degrees.len() as u32)?;
    push_degrees(out, degrees)
}

// Writes a part and its program's text.
fn push_part(out: &mut Vec<u8>, part: &Part, program: &[u8]) -> Result<(), AllocError>
    requires { length program.now < 2 ^ 32 }
    ensures { OnOk result (out.new.items
        ≡ out.old.items ++ spelled_part (plain_of part.now) program.now) }
{
    push_head(out, part)?;
    push_ends(out, part.cuts.ends())?;
    push_text(out, program)?;
    push_counted_edges(out, &part.scan)?;
    push_counted_edges(out, &part.push)?;
    push_counted_degrees(out, &part.degrees)
}

// How many bytes the file has.
fn file_len(part: &Part, program: &[u8]) -> usize
    requires { length program.now < 2 ^ 32 }
{
    let units = part.scan.len() + part.push.len() + part.degrees.len();
    38 + 4 * part.cuts.ends().len() + program.len() + 12 * units
}

/// The part file of a part and its program's text.
pub fn write_part(alloc: Global, part: &Part, program: &[u8]) -> Result<Vec<u8>, Want>
    requires { Says program.now part.now.split.value.program.program }
    ensures bytes { IfOk result (λ bytes.
        bytes.items ≡ spelled_part (plain_of part.now) program.now) }
    ensures fits { IfOk result (λ _. IsWritable (plain_of part.now) program.now) }
{
    let _ends = part.cuts.ends();
    let _machine = part.at.number();
    let _draws = part.draws;
    edges_have_weights(&part.scan);
    edges_have_weights(&part.push);
    degrees_are_counts(&part.degrees);
    let mut out = Vec::with_capacity(alloc, file_len(part, program))?;
    push_part(&mut out, part, program)?;
    Ok(out)
}
