ghost use Rattle.std.specs.Prelude.{◌≡◌, ◌≢◌, ℕ, ◌++◌, List, length, take, map, min, IfOk, bytes_eq, position};
ghost use Rattle.edge_io.specs.Files.{left_of};
ghost use Rattle.edge_io.specs.Files.{HeldFile};
ghost use Rattle.edge_io.specs.MemoryDesk.{held_of};

use base_types::{Bytes, Listed, OutOfMemory, Text};
use std::alloc::Global;
use std::marker::Model;

/// A file of a desk in memory.
#[derive(Drop)]
pub struct InputFile {
    pub name: Text,
    pub bytes: Bytes,
}

/// Files of distinct names; of files with one name the first counts.
pub type InputFiles = Listed<InputFile>;

/// A file, and how many of its bytes were taken.
#[derive(Drop)]
pub struct OpenFile {
    name: Text,
    bytes: Bytes,
    taken: usize,
}

impl Model for OpenFile {
    ghost use Rattle.std.specs.Prelude.{drop, length, ◌≤◌};
    ghost use Rattle.edge_io.specs.Files.{HeldFile};
    ghost use Rattle.edge_io.specs.MemoryDesk.{held_of};

    ghost Value = { HeldFile };

    ghost view = { λ f. record { name = f.name; left = drop f.taken f.bytes } };

    ghost invariant = { λ f. f.taken ≤ length f.bytes };
}

impl OpenFile {
    pub fn new(file: InputFile) -> OpenFile
        ensures { result ≡ record { name = file.name; left = file.bytes } }
    {
        OpenFile {
            name: file.name,
            bytes: file.bytes,
            taken: 0,
        }
    }

    fn is_named(&self, name: &str) -> bool
        ensures { result ≡ bytes_eq self.now.name name.now }
    {
        self.name.as_str() == name
    }

    /// Moves bytes of the file to the front of `into`: as many as there are and have room, and at
    /// most `most`.
    fn give(&mut self, most: usize, into: &mut [u8]) -> usize
        ensures count { result ≡ min (min most (length into.new)) (length self.old.left) }
        ensures given { self.old.left ≡ take result into.new ++ self.new.left }
        ensures name { self.new.name ≡ self.old.name }
    {
        let count = copy_front(&self.bytes.as_slice()[self.taken..], most, into);
        self.taken += count;
        count
    }
}

// Copies the front of `bytes` to the front of `into`.
fn copy_front(bytes: &[u8], most: usize, into: &mut [u8]) -> usize
    ensures count { result ≡ min (min most (length into.new)) (length bytes.now) }
    ensures copied { take result into.new ≡ take result bytes.now }
{
    let count = most.min(into.len()).min(bytes.len());
    into[..count].copy_from_slice(&bytes[..count]);
    count
}

/// Opens each file.
pub fn open_files(alloc: Global, files: InputFiles) -> Result<Vec<OpenFile>, OutOfMemory>
    ensures { IfOk result (λ opened. opened.items ≡ map held_of files) }
{
    let mut opened = Vec::new(alloc);
    for file in files.into_vec() {
        opened.push(OpenFile::new(file))?;
    }
    Ok(opened)
}

// Where the first file of a name stands.
fn find_named(files: &[OpenFile], name: &str) -> Option<usize>
    ensures { result ≡ position (λ file. bytes_eq file.name name.now) files.now }
{
    files.iter().position(|file| file.is_named(name))
}

/// Moves bytes of a name to the front of `into`: those of the first file of that name.
pub fn give_named(files: &mut [OpenFile], name: &str, most: usize, into: &mut [u8]) -> usize
    ensures count { result ≡ min (min most (length into.new))
        (length (left_of files.old name.now)) }
    ensures given { left_of files.old name.now ≡ take result into.new ++ left_of
        files.new name.now }
    ensures others { (other : List ℕ) → other ≢ name.now → left_of files.new other
        ≡ left_of files.old other }
{
    match find_named(files, name) {
        Some(at) => files[at].give(most, into),
        None => 0,
    }
}
