ghost use Rattle.std.specs.Prelude.{◌≡◌, ◌∷◌, ◌<◌, ◌≤◌, true, length, map, string_bytes};
ghost use Rattle.edge_io.specs.Whole.{most_piece};
ghost use Rattle.cluster_setup.specs.Gathering.{AreGathered, AreGiven};
ghost use Rattle.process_words.specs.Names.{are_distinct};

use base_types::Bytes;
use edge_io::{Desk, WholeStop, piece_buffer, read_whole};
use std::alloc::Global;

/// A policy, and each file, may have so many bytes.
const MOST_FILE: usize = 268_435_456;

/// What a setup is made of.
#[derive(Drop)]
pub struct GivenFiles {
    pub policy: Bytes,
    pub files: Vec<Bytes>,
}

/// Reads a policy and files from a desk, each by its name, up to the first that is too long.
pub fn read_given<D: Desk>(
    alloc: Global,
    desk: &mut D,
    policy: &str,
    names: &[String],
) -> Result<GivenFiles, WholeStop>
    requires { are_distinct (policy.now ∷ map string_bytes names.now) ≡ true }
    ensures { AreGiven policy.now (map string_bytes names.now) (D.left desk.old) (D.left desk.new)
        (D.faults desk.old) (D.faults desk.new) result }
{
    let Ok(mut buffer) = piece_buffer(alloc) else {
        return Err(WholeStop::OutOfMemory);
    };
    match read_whole(alloc, desk, policy, MOST_FILE, &mut buffer) {
        Ok(bytes) => {
            let mut files = Vec::new(alloc);
            match read_files(alloc, desk, names, &mut buffer, &mut files) {
                Ok(()) => Ok(GivenFiles {
                    policy: bytes,
                    files,
                }),
                Err(stop) => Err(stop),
            }
        }
        Err(stop) => Err(stop),
    }
}

// Reads files from a desk, each by its name, and puts their bytes behind others.
fn read_files<D: Desk>(
    alloc: Global,
    desk: &mut D,
    names: &[String],
    buffer: &mut [u8],
    given: &mut Vec<Bytes>,
) -> Result<(), WholeStop>
    requires differ { are_distinct (map string_bytes names.now) ≡ true }
    requires some { 0 < length buffer.old }
    requires piece { length buffer.old ≤ most_piece }
    ensures { AreGathered (map string_bytes names.now) given.old.items given.new.items
        (D.left desk.old) (D.left desk.new) (D.faults desk.old) (D.faults desk.new) result }
{
    for name in names {
        match read_whole(alloc, desk, name, MOST_FILE, buffer) {
            Ok(bytes) => match given.push(bytes) {
                Ok(()) => {}
                Err(_) => return Err(WholeStop::OutOfMemory),
            },
            Err(stop) => return Err(stop),
        }
    }
    Ok(())
}
