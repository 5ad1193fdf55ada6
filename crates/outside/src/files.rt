// Files in memory.
ghost use Rattle.std.specs.Prelude.{◌≡◌, ◌++◌, ◌<◌, ◌≤◌, ℕ, List, length, take, drop, true, slice_index_or, string_bytes, bytes_eq, OnOk, OnErr, option_map};
ghost use Rattle.outside.specs.Files.{files_of, file_named, with_file};

use std::alloc::Global;
use std::marker::Model;
use vert_base::Want;

#[derive(Drop)]
pub struct Files {
    alloc: Global,
    list: Vec<(String, Vec<u8>)>,
}

impl Model for Files {
    ghost use Rattle.std.specs.Prelude.{List};
    ghost use Rattle.outside.specs.Files.{File, files_of};

    ghost Value = { List File };

    ghost view = { λ f. files_of f.list.items };
}

impl Files {
    pub fn new(alloc: Global, list: Vec<(String, Vec<u8>)>) -> Files
        ensures { result ≡ files_of list.items }
    {
        Files { alloc, list }
    }

    pub fn find(&self, name: &str) -> Option<&[u8]>
        ensures { option_map (λ bytes. bytes.now) result ≡ file_named name.now self.now }
    {
        find_in(&self.list, name)
    }

    pub fn put(&mut self, name: &str, bytes: &[u8]) -> Result<(), Want>
        ensures put { OnOk result (self.new ≡ with_file name.now bytes.now self.old) }
        ensures want { OnErr result (self.new ≡ self.old) }
    {
        put_at(&mut self.list, self.alloc, name, bytes)
    }
}

// The place of the first file of that name, or the place past the last file.
fn place_of(files: &[(String, Vec<u8>)], name: &str) -> usize
    ensures within { result ≤ length files.now }
    ensures here { (other : _) → result < length files.now →
        bytes_eq (string_bytes (slice_index_or files.now result other).0) name.now ≡ true }
    ensures named { file_named name.now (drop result (files_of files.now))
        ≡ file_named name.now (files_of files.now) }
    ensures others { (bytes : List ℕ) →
        take result (files_of files.now)
        ++ with_file name.now bytes (drop result (files_of files.now))
        ≡ with_file name.now bytes (files_of files.now) }
{
    let mut at = 0;
    while at < files.len() {
        if files[at].0.as_str() == name {
            return at;
        }
        at += 1;
    }
    at
}

fn find_in<'a>(files: &'a [(String, Vec<u8>)], name: &str) -> Option<&'a [u8]>
    ensures { option_map (λ bytes. bytes.now) result ≡ file_named name.now (files_of files.now) }
{
    let at = place_of(files, name);
    if at < files.len() {
        Some(files[at].1.as_slice())
    } else {
        None
    }
}

fn put_at(
    files: &mut Vec<(String, Vec<u8>)>,
    alloc: Global,
    name: &str,
    bytes: &[u8],
) -> Result<(), Want>
    ensures put { OnOk result (files_of files.new.items
        ≡ with_file name.now bytes.now (files_of files.old.items)) }
    ensures want { OnErr result (files_of files.new.items ≡ files_of files.old.items) }
{
    let Ok(fresh) = Vec::from_slice(alloc, bytes) else {
        return Err(Want);
    };
    let at = place_of(files, name);
    if at < files.len() {
        files[at].1 = fresh;
        return Ok(());
    }
    let Ok(text) = String::from_str(alloc, name) else {
        return Err(Want);
    };
    match files.push((text, fresh)) {
        Ok(()) => Ok(()),
        Err(_) => Err(Want),
    }
}
