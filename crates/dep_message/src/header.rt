ghost use Rattle.std.specs.Prelude.{◌≡◌, ◌≤◌, ◌++◌, OnOk, length};
ghost use Rattle.vert_base.specs.HeaderBytes.{code_of, four_bytes, kind_of, number_of_four, spelled_header};
ghost use Rattle.dep_message.specs.Messages.{header_in};

use std::alloc::AllocError;
use vert_base::{Name, NameKind};

/// How many bytes a header has.
pub const HEADER: usize = 13;

/// What stands before the body of a message: its name, which is None where the kind is none of the six, and the size of
/// the body.
#[derive(Clone, Copy)]
pub struct Header {
    pub name: Option<Name>,
    pub size: u32,
}

impl Header {
    /// The header at the front of bytes.
    pub fn read(bytes: &[u8]) -> Header
        requires { HEADER ≤ length bytes.now }
        ensures { result ≡ header_in bytes.now }
    {
        Header {
            name: kind_with(bytes[0]).map(|kind| Name {
                kind,
                round: number_of(&bytes[1..5]),
                step: bytes[5],
                half: bytes[6],
                from: bytes[7],
                to: bytes[8],
            }),
            size: number_of(&bytes[9..13]),
        }
    }
}

// The number that four bytes spell, the low one first.
#[tactic(auto, unfolding(vert_base::specs::HeaderBytes::number_of_four))]
fn number_of(bytes: &[u8]) -> u32
    requires { length bytes.now ≡ 4 }
    ensures { result ≡ number_of_four bytes.now }
{
    u32::from_le_bytes([bytes[0], bytes[1], bytes[2], bytes[3]])
}

fn kind_with(code: u8) -> Option<NameKind>
    ensures { result ≡ kind_of code }
{
    match code {
        1 => Some(NameKind::Refresh),
        2 => Some(NameKind::Dep),
        3 => Some(NameKind::Update),
        4 => Some(NameKind::Push),
        5 => Some(NameKind::Tally),
        6 => Some(NameKind::Verdict),
        _ => None,
    }
}

fn code_of(kind: NameKind) -> u8
    ensures { result ≡ code_of kind }
{
    match kind {
        NameKind::Refresh => 1,
        NameKind::Dep => 2,
        NameKind::Update => 3,
        NameKind::Push => 4,
        NameKind::Tally => 5,
        NameKind::Verdict => 6,
    }
}

// Writes a number at the end of bytes.
#[tactic(auto, unfolding(vert_base::specs::HeaderBytes::four_bytes))]
fn push_four(bytes: &mut Vec<u8>, number: u32) -> Result<(), AllocError>
    ensures { OnOk result (bytes.new.items ≡ bytes.old.items ++ four_bytes number) }
{
    bytes.extend_from_slice(&number.to_le_bytes())?;
    Ok(())
}

/// Writes the header of a message at the end of bytes.
pub(crate) fn push_header(bytes: &mut Vec<u8>, name: &Name, size: u32) -> Result<(), AllocError>
    ensures { OnOk result (bytes.new.items ≡ bytes.old.items ++ spelled_header name.now size) }
{
    bytes.push(code_of(name.kind))?;
    push_four(bytes, name.round)?;
    bytes.extend_from_slice(&[name.step, name.half, name.from, name.to])?;
    push_four(bytes, size)?;
    Ok(())
}
