ghost use Rattle.std.specs.Prelude.{◌≡◌, ◌≢◌, ◌≤◌, ◌<◌, None, Err, IfOk, vec_len};
ghost use Rattle.outside.specs.declared.shelf.LoadFault.TheVariants.{Missing, TooLong};

use crate::counts::one_more;
use crate::pieces::{read_some, write_whole};
use outside::{LoadFault, Shelf, StoreFault};
use std::alloc::Global;
use std::fs;
use std::io::{ErrorKind, Read};
use std::rt::Files;

/// The most bytes that one read asks for.
const PIECE: usize = 65_536;

/// The files of the system, each under its path. It counts its failures and tells nothing of contents.
#[derive(Drop)]
pub struct FileShelf<'a, R: Files> {
    system: &'a R,
    loads: u64,
    stores: u64,
    came: u64,
}

impl<'a, R: Files> FileShelf<'a, R> {
    /// The files that the system gives.
    pub fn new(system: &'a R) -> Self
        ensures loads { result.loads ≡ 0 }
        ensures stores { result.stores ≡ 0 }
    {
        FileShelf {
            system,
            loads: 0,
            stores: 0,
            came: 0,
        }
    }
}

impl<R: Files> Shelf for FileShelf<'_, R> {
    ghost files = { λ _. None };

    ghost loads = { λ shelf. shelf.loads };

    ghost stores = { λ shelf. shelf.stores };

    ghost came = { λ shelf. shelf.came };

    fn load(&mut self, alloc: Global, name: &str, limit: u64) -> Result<Vec<u8>, LoadFault> {
        let mut file = match fs::open(self.system, name) {
            Ok(file) => file,
            Err(error) => {
                self.loads = one_more(self.loads);
                if error.kind() == ErrorKind::NotFound {
                    return Err(LoadFault::Missing);
                }
                return Err(LoadFault::Failed);
            }
        };
        let come = read_whole(alloc, &mut file, limit);
        self.came = come.count;
        if let Err(LoadFault::Failed) = come.bytes {
            self.loads = one_more(self.loads);
        }
        come.bytes
    }

    fn store(&mut self, name: &str, bytes: &[u8]) -> Result<(), StoreFault> {
        if let Ok(mut file) = fs::create(self.system, name) {
            if write_whole(&mut file, bytes) {
                return Ok(());
            }
        }
        self.stores = one_more(self.stores);
        Err(StoreFault::Failed)
    }
}

/// The bytes of a file, and how many came.
#[derive(Drop)]
struct Come {
    count: u64,
    bytes: Result<Vec<u8>, LoadFault>,
}

/// Reads a file to its end, or until more bytes came than the limit.
fn read_whole<F: Read>(alloc: Global, file: &mut F, limit: u64) -> Come
    ensures within { IfOk result.bytes (λ bytes. vec_len bytes ≤ limit) }
    ensures count { IfOk result.bytes (λ bytes. result.count ≡ vec_len bytes) }
    ensures too_long { result.bytes ≡ Err TooLong → limit < result.count }
    ensures there { result.bytes ≢ Err Missing }
{
    let mut bytes = Vec::new(alloc);
    let mut piece = [0u8; PIECE];
    for _ in 0..u64::MAX {
        let count = bytes.len() as u64;
        let Some(size) = read_some(file, &mut piece) else {
            break;
        };
        if size == 0 {
            return Come {
                count,
                bytes: Ok(bytes),
            };
        }
        match count.checked_add(size as u64) {
            Some(count) if count <= limit => {}
            Some(count) => {
                return Come {
                    count,
                    bytes: Err(LoadFault::TooLong),
                };
            }
            None => break,
        }
        if bytes.extend_from_slice(&piece[..size]).is_err() {
            return Come {
                count,
                bytes: Err(LoadFault::Want),
            };
        }
    }
    Come {
        count: 0,
        bytes: Err(LoadFault::Failed),
    }
}
