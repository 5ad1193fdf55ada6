// Shelves in memory.
ghost use Rattle.std.specs.Prelude.{◌≡◌, IsTrue, true, false, Some, Err, OnOk, IfErr, option_map, if◌then◌else◌};
ghost use Rattle.outside.specs.Calls.{next_fails, called, one_more};
ghost use Rattle.outside.specs.Files.{files_of, names_differ, file_named, with_file};
ghost use Rattle.outside.specs.Shelves.{LoadAnswer, size_of};

use crate::calls::Calls;
use crate::files::Files;
use crate::shelf::{LoadFault, Shelf, StoreFault};
use std::alloc::Global;
use std::marker::Model;

/// A shelf that never fails.
#[derive(Drop)]
pub struct FirmShelf {
    files: Files,
    came: u64,
}

impl Model for FirmShelf {
    ghost use Rattle.outside.specs.Shelves.{Firm};

    ghost Value = { Firm };

    ghost view = { λ shelf. record { files = shelf.files; came = shelf.came } };
}

impl FirmShelf {
    pub fn new(alloc: Global, files: Vec<(String, Vec<u8>)>) -> FirmShelf
        requires { IsTrue (names_differ (files_of files.items)) }
        ensures { result ≡ record { files = files_of files.items; came = 0 } }
    {
        FirmShelf {
            files: Files::new(alloc, files),
            came: 0,
        }
    }
}

impl Shelf for FirmShelf {
    ghost files = { λ shelf. Some shelf.files };

    ghost loads = { λ _. 0 };

    ghost stores = { λ _. 0 };

    ghost came = { λ shelf. shelf.came };

    fn load(&mut self, alloc: Global, name: &str, limit: u64) -> Result<Vec<u8>, LoadFault>
        ensures answer { LoadAnswer limit (file_named name.now self.old.files) result }
        ensures state { self.new ≡ record self.old
            { came = size_of (file_named name.now self.old.files) } }
    {
        let found = self.files.find(name);
        let size = size_of(found);
        let loaded = load_answer(alloc, found, limit);
        self.came = size;
        loaded
    }

    fn store(&mut self, name: &str, bytes: &[u8]) -> Result<(), StoreFault>
        ensures stored { OnOk result
            (self.new ≡ record self.old { files = with_file name.now bytes.now self.old.files }) }
        ensures want { IfErr result (λ fault. (fault ≡ StoreFault.Want) × (self.new ≡ self.old)) }
    {
        match self.files.put(name, bytes) {
            Ok(()) => Ok(()),
            Err(_) => Err(StoreFault::Want),
        }
    }
}

/// A shelf whose calls fail at the numbers that it was given, from 1, loads and stores counted
/// together. Else it is as a `FirmShelf`.
#[derive(Drop)]
pub struct MemShelf {
    files: Files,
    came: u64,
    calls: Calls,
    load_count: u64,
    store_count: u64,
}

impl Model for MemShelf {
    ghost use Rattle.outside.specs.Shelves.{Counting};

    ghost Value = { Counting };

    ghost view = { λ shelf. record {
      files = shelf.files;
      came = shelf.came;
      calls = shelf.calls;
      loads = shelf.load_count;
      stores = shelf.store_count;
    } };
}

impl MemShelf {
    pub fn new(alloc: Global, files: Vec<(String, Vec<u8>)>, fails: Vec<u64>) -> MemShelf
        requires { IsTrue (names_differ (files_of files.items)) }
        ensures { result ≡ record {
          files = files_of files.items;
          came = 0;
          calls = record { fails = fails.items; count = 0 };
          loads = 0;
          stores = 0;
        } }
    {
        MemShelf {
            files: Files::new(alloc, files),
            came: 0,
            calls: Calls::new(fails),
            load_count: 0,
            store_count: 0,
        }
    }
}

impl Shelf for MemShelf {
    ghost files = { λ shelf. Some shelf.files };

    ghost loads = { λ shelf. shelf.loads };

    ghost stores = { λ shelf. shelf.stores };

    ghost came = { λ shelf. shelf.came };

    fn load(&mut self, alloc: Global, name: &str, limit: u64) -> Result<Vec<u8>, LoadFault>
        ensures failed { next_fails self.old.calls ≡ true → (result ≡ Err LoadFault.Failed) ×
            (self.new ≡ record self.old {
              calls = called self.old.calls;
              loads = one_more self.old.loads;
            }) }
        ensures answer { next_fails self.old.calls ≡ false →
            LoadAnswer limit (file_named name.now self.old.files) result }
        ensures state { next_fails self.old.calls ≡ false →
            self.new ≡ record self.old {
              calls = called self.old.calls;
              came = size_of (file_named name.now self.old.files);
            } }
    {
        if self.calls.next_fails() {
            self.load_count = self.load_count.saturating_add(1);
            return Err(LoadFault::Failed);
        }
        let found = self.files.find(name);
        let size = size_of(found);
        let loaded = load_answer(alloc, found, limit);
        self.came = size;
        loaded
    }

    fn store(&mut self, name: &str, bytes: &[u8]) -> Result<(), StoreFault>
        ensures failed { next_fails self.old.calls ≡ true → (result ≡ Err StoreFault.Failed) ×
            (self.new ≡ record self.old {
              calls = called self.old.calls;
              stores = one_more self.old.stores;
            }) }
        ensures stored { next_fails self.old.calls ≡ false →
            OnOk result (self.new ≡ record self.old {
              calls = called self.old.calls;
              files = with_file name.now bytes.now self.old.files;
            }) }
        ensures want { next_fails self.old.calls ≡ false →
            IfErr result (λ fault. (fault ≡ StoreFault.Want) ×
            (self.new ≡ record self.old { calls = called self.old.calls })) }
    {
        if self.calls.next_fails() {
            self.store_count = self.store_count.saturating_add(1);
            return Err(StoreFault::Failed);
        }
        match self.files.put(name, bytes) {
            Ok(()) => Ok(()),
            Err(_) => Err(StoreFault::Want),
        }
    }
}

fn size_of(found: Option<&[u8]>) -> u64
    ensures { result ≡ size_of (option_map (λ bytes. bytes.now) found.entry) }
{
    match found {
        Some(bytes) => bytes.len() as u64,
        None => 0,
    }
}

fn load_answer(alloc: Global, found: Option<&[u8]>, limit: u64) -> Result<Vec<u8>, LoadFault>
    ensures { LoadAnswer limit (option_map (λ bytes. bytes.now) found.entry) result }
{
    let Some(bytes) = found else {
        return Err(LoadFault::Missing);
    };
    if bytes.len() as u64 > limit {
        return Err(LoadFault::TooLong);
    }
    match Vec::from_slice(alloc, bytes) {
        Ok(copy) => Ok(copy),
        Err(_) => Err(LoadFault::Want),
    }
}
