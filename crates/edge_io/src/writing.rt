ghost use Rattle.std.specs.Prelude.{◌≤◌, OnOk, OnErr};
ghost use Rattle.std.specs.Io.KnownBytes.{Appends};
ghost use Rattle.edge_io.specs.Endings.{AppendsPart, Ends};
ghost use Rattle.edge_io.specs.Faults.{HasCause};

use crate::edge::{Sink, SinkFailed};

/// The exit status of a program whose write failed.
const WRITE_FAILED: u8 = 6;

/// Writes a text to its end.
pub fn write_whole<K: Sink>(out: &mut K, text: &[u8]) -> Result<(), SinkFailed>
    ensures whole { OnOk result (Appends (K.written out.old) (K.written out.new) text.now) }
    ensures part { OnErr result (AppendsPart (K.written out.old) (K.written out.new) text.now) }
    ensures cause { HasCause (K.faults out.old) (K.faults out.new) result }
{
    let mut at = 0;
    'pieces: while at < text.len() {
        at += out.write(&text[at..])?;
    }
    Ok(())
}

/// Writes the text of an answer and gives its exit status, or 6 where a write failed.
pub fn end_with<K: Sink>(out: &mut K, status: u8, text: &[u8]) -> u8
    ensures ends { Ends status text.now (K.faults out.old) (K.faults out.new) (K.written out.old)
        (K.written out.new) result }
    ensures counted { K.faults out.old ≤ K.faults out.new }
{
    match write_whole(out, text) {
        Ok(()) => status,
        Err(SinkFailed) => WRITE_FAILED,
    }
}
