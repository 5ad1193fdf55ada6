// Where files stand.
ghost use Rattle.std.specs.Prelude.{◌≡◌, ◌≢◌, ℕ, ◌<◌, ◌≤◌, List, length, Option, Some, None, Ok, Err, IfOk, OnOk, IsSomeAnd, option_map, vec_len};
ghost use Rattle.outside.specs.Causes.{Rose};
ghost use Rattle.outside.specs.Files.{File, file_named, with_file, SameBut};

use std::alloc::Global;

/// Why a load gave no bytes.
#[derive(Clone, Copy, Debug, PartialEq, Eq)]
pub enum LoadFault {
    /// The shelf failed.
    Failed,
    /// No file of that name is there.
    Missing,
    /// The file is longer than the limit.
    TooLong,
    /// Want of memory.
    Want,
}

/// Why a store put nothing.
#[derive(Clone, Copy, Debug, PartialEq, Eq)]
pub enum StoreFault {
    /// The shelf failed. What stands under the name is open.
    Failed,
    /// Want of memory. All stands as before.
    Want,
}

/// Where files stand, each under its name.
pub trait Shelf {
    // the files, where it tells them
    ghost files: { Self → Option (List File) };

    // how many loads failed; where it tells no files, a missing file is such a failure
    ghost loads: { Self → ℕ };

    // how many stores failed
    ghost stores: { Self → ℕ };

    // how many bytes the last load took
    ghost came: { Self → ℕ };

    /// Gives the bytes of the file of that name, which are at most `limit`.
    fn load(&mut self, alloc: Global, name: &str, limit: u64) -> Result<Vec<u8>, LoadFault>
        ensures bytes { IfOk result (λ bytes. (told : List File) → files self.old ≡ Some told →
            file_named name.now told ≡ Some bytes.items) }
        ensures within { IfOk result (λ bytes. vec_len bytes ≤ limit) }
        ensures came { IfOk result (λ bytes. came self.new ≡ vec_len bytes) }
        ensures failed { result ≡ Err LoadFault.Failed → Rose (loads self.old) (loads self.new) }
        // Where the files are told, Missing and TooLong say what is so ..
        ensures missing { result ≡ Err LoadFault.Missing → (told : List File) →
            files self.old ≡ Some told → (file_named name.now told ≡ None) ×
            (loads self.new ≡ loads self.old) }
        ensures too_long { result ≡ Err LoadFault.TooLong → (told : List File) →
            files self.old ≡ Some told →
            IsSomeAnd (file_named name.now told) (λ bytes. limit < length bytes) }
        // .. and are answered wherever it is so and the count didn't rise.
        ensures not_there { (told : List File) → files self.old ≡ Some told →
            file_named name.now told ≡ None → ¬ (Rose (loads self.old) (loads self.new)) →
            result ≡ Err LoadFault.Missing }
        ensures longer { (told : List File) → files self.old ≡ Some told →
            IsSomeAnd (file_named name.now told) (λ bytes. limit < length bytes) →
            ¬ (Rose (loads self.old) (loads self.new)) → result ≡ Err LoadFault.TooLong }
        // Where no files are told, only the counts say it.
        ensures untold_missing { result ≡ Err LoadFault.Missing → files self.old ≡ None →
            Rose (loads self.old) (loads self.new) }
        ensures took { result ≡ Err LoadFault.TooLong → limit < came self.new }
        ensures counted { result ≢ Err LoadFault.Failed → result ≢ Err LoadFault.Missing →
            loads self.new ≡ loads self.old }
        ensures later { loads self.old ≤ loads self.new }
        ensures same_files { files self.new ≡ files self.old }
        ensures same_stores { stores self.new ≡ stores self.old };

    /// Puts the bytes under the name, in the place of what stood there.
    fn store(&mut self, name: &str, bytes: &[u8]) -> Result<(), StoreFault>
        ensures stored { OnOk result
            (files self.new ≡ option_map (with_file name.now bytes.now) (files self.old)) }
        ensures failed { result ≡ Err StoreFault.Failed → Rose (stores self.old) (stores self.new) }
        ensures others { result ≡ Err StoreFault.Failed →
            SameBut name.now (files self.old) (files self.new) }
        ensures want { result ≡ Err StoreFault.Want → files self.new ≡ files self.old }
        ensures counted { result ≢ Err StoreFault.Failed → stores self.new ≡ stores self.old }
        ensures later { stores self.old ≤ stores self.new }
        ensures same_loads { loads self.new ≡ loads self.old };
}
