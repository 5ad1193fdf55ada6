//! Bytes that tables spell.

use std::alloc::{AllocError, Global};

/// The bytes that a cell spells by two hexadecimal digits each.
pub(crate) fn bytes_of(alloc: Global, cell: &str) -> Result<Vec<u8>, AllocError> {
    let mut bytes = Vec::new(alloc);
    let mut high = None;
    for byte in cell.bytes() {
        let digit = match byte {
            b'0'..=b'9' => byte - b'0',
            b'a'..=b'f' => byte - b'a' + 10,
            _ => return Ok(bytes),
        };
        match high {
            None => high = Some(digit),
            Some(first) => {
                bytes.push(first << 4 | digit)?;
                high = None;
            }
        }
    }
    Ok(bytes)
}
