ghost use Rattle.std.specs.Prelude.{◌≡◌, [], vec_len};
ghost use Rattle.std.specs.Str.{IsUtf8};
ghost use Rattle.std.specs.String.{string_bytes};

use std::alloc::Global;
use std::env::FillError;
use std::rt::Env;
use vert_base::Want;

/// The words behind the program's own name. No clause can say what words a system hands over.
pub fn words_of(system: &impl Env, alloc: Global) -> Result<Vec<String>, Want> {
    let mut words = Vec::new(alloc);
    for place in 1..usize::MAX {
        let Some(bytes) = word_at(system, alloc, place)? else {
            break;
        };
        if words.push(word_of(alloc, bytes)).is_err() {
            return Err(Want);
        }
    }
    Ok(words)
}

/// The word of some bytes. Those that aren't UTF-8 give the empty word, which no line takes.
fn word_of(alloc: Global, bytes: Vec<u8>) -> String
    ensures text { IsUtf8 bytes.items → string_bytes result ≡ bytes.items }
    ensures none { ¬ (IsUtf8 bytes.items) → string_bytes result ≡ [] }
{
    match String::from_utf8(bytes) {
        Ok(word) => word,
        Err(_) => String::new(alloc),
    }
}

/// The word at a place, where there is one.
fn word_at(system: &impl Env, alloc: Global, place: usize) -> Result<Option<Vec<u8>>, Want> {
    let mut capacity: usize = 256;
    for _ in 0..usize::BITS {
        let Ok(mut bytes) = vec![in alloc; 0u8; capacity] else {
            return Err(Want);
        };
        match system.arg(place, &mut bytes) {
            Ok(size) => {
                bytes.truncate(size);
                return Ok(Some(bytes));
            }
            Err(FillError::NotPresent) => return Ok(None),
            Err(FillError::TooLong) => capacity = capacity.saturating_add(capacity),
        }
    }
    Err(Want)
}
