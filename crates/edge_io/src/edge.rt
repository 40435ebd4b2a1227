ghost use Rattle.std.specs.Prelude.{◌≡◌, ◌≢◌, ℕ, ◌<◌, ◌≤◌, List, Option, length, IfOk};
ghost use Rattle.std.specs.Io.{ReadsAtMost};
ghost use Rattle.std.specs.Io.KnownBytes.{ReadConsumes, WriteAppends};
ghost use Rattle.edge_io.specs.Faults.{HasCause};

use thiserror::Error;

/// A read failed. The desk's count of faults rose, and no byte was taken.
#[derive(Clone, Copy, Debug, PartialEq, Eq, Error)]
#[error("a read failed")]
pub struct DeskFailed;

/// A write failed. The sink's count of faults rose, and no byte was written.
#[derive(Clone, Copy, Debug, PartialEq, Eq, Error)]
#[error("a write failed")]
pub struct SinkFailed;

/// Where bytes are read, by name.
pub trait Desk {
    // The bytes left of a name, where they are told.
    ghost left: { Self → List ℕ → Option (List ℕ) };

    // A count that never falls.
    ghost faults: { Self → ℕ };

    /// Takes the next bytes of a name into the front of `into`, and says how many. None are taken
    /// only at the end of the name.
    fn read(&mut self, name: &str, into: &mut [u8]) -> Result<usize, DeskFailed>
        requires { 0 < length into.old }
        ensures bound { ReadsAtMost result into.new }
        ensures bytes { ReadConsumes (left self.old name.now) (left self.new name.now)
            result into.new }
        ensures others { (other : List ℕ) → other ≢ name.now → left self.new other
            ≡ left self.old other }
        ensures cause { HasCause (faults self.old) (faults self.new) result };
}

/// Where bytes are written.
pub trait Sink {
    // The bytes written so far, where they are told.
    ghost written: { Self → Option (List ℕ) };

    // A count that never falls.
    ghost faults: { Self → ℕ };

    /// Writes bytes of the front of `piece`, and says how many: at least one.
    fn write(&mut self, piece: &[u8]) -> Result<usize, SinkFailed>
        requires { 0 < length piece.now }
        ensures bound { IfOk result (λ n. (0 < n) × (n ≤ length piece.now)) }
        ensures bytes { WriteAppends (written self.old) (written self.new) result piece.now }
        ensures cause { HasCause (faults self.old) (faults self.new) result };
}
