ghost use Rattle.std.specs.Prelude.{◌≡◌, ◌≢◌, ℕ, ◌<◌, ◌≤◌, List, IfOk, length};
ghost use Rattle.edge_io.specs.Whole.{ReadsWhole, most_piece};

use crate::edge::{Desk, DeskFailed};
use base_types::Bytes;
use std::alloc::{AllocError, Global};
use thiserror::Error;

/// What a read offers room for, in bytes.
const PIECE: usize = 65_536;

/// Why a name wasn't read to its end.
#[derive(Clone, Copy, Debug, PartialEq, Eq, Error)]
pub enum WholeStop {
    /// There are more bytes than are wanted.
    #[error("there are too many bytes")]
    TooLong,
    /// A read failed.
    #[error("a read failed")]
    ReadFault,
    #[error("out of memory")]
    OutOfMemory,
}

/// Reads a name to its end, unless it has more than `most` bytes. Each read offers the whole buffer.
pub fn read_whole<D: Desk>(
    alloc: Global,
    desk: &mut D,
    name: &str,
    most: usize,
    buffer: &mut [u8],
) -> Result<Bytes, WholeStop>
    requires some { 0 < length buffer.old }
    requires piece { length buffer.old ≤ most_piece }
    ensures reads { ReadsWhole most (D.left desk.old name.now) (D.left desk.new name.now)
        (D.faults desk.old) (D.faults desk.new) result }
    ensures others { (other : List ℕ) → other ≢ name.now → D.left desk.new other
        ≡ D.left desk.old other }
{
    let mut bytes = Vec::new(alloc);
    'pieces: loop {
        let count = match desk.read(name, buffer) {
            Ok(count) => count,
            Err(DeskFailed) => return Err(WholeStop::ReadFault),
        };
        if count == 0 {
            return Ok(Bytes::from_vec(bytes));
        }
        let room = most - bytes.len();
        if room < count {
            return Err(WholeStop::TooLong);
        }
        if let Err(AllocError) = bytes.extend_from_slice(&buffer[..count]) {
            return Err(WholeStop::OutOfMemory);
        }
    }
}

/// Room for what a read gives.
pub fn piece_buffer(alloc: Global) -> Result<Vec<u8>, AllocError>
    ensures { IfOk result (λ buffer. length buffer.items ≡ 65536) }
{
    vec![in alloc; 0u8; PIECE]
}
