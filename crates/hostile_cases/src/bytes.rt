//! Numbers in bytes, and bytes that a text spells.

use std::alloc::{AllocError, Global};

/// The number of four bytes at a place, the lowest byte first, where they are there.
pub fn four_at(bytes: &[u8], place: usize) -> Option<u32> {
    let (_, behind) = bytes.split_at_checked(place)?;
    let four = behind.first_chunk::<4>()?;
    Some(u32::from_le_bytes(*four))
}

/// The same of eight bytes.
pub fn eight_at(bytes: &[u8], place: usize) -> Option<u64> {
    let (_, behind) = bytes.split_at_checked(place)?;
    let eight = behind.first_chunk::<8>()?;
    Some(u64::from_le_bytes(*eight))
}

/// The bytes that a text spells by two hexadecimal digits each, whatever blanks stand among them.
pub fn spelled(alloc: Global, text: &str) -> Result<Vec<u8>, AllocError> {
    let mut bytes = Vec::new(alloc);
    let mut high = None;
    for byte in text.bytes() {
        let digit = match byte {
            b'0'..=b'9' => byte - b'0',
            b'a'..=b'f' => byte - b'a' + 10,
            _ => continue,
        };
        match high {
            None => high = Some(digit),
            Some(first) => {
                bytes.push(first << 4 | digit)?;
                high = None;
            }
        }
    }
    Ok(bytes)
}
