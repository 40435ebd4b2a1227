ghost use Rattle.std.specs.Prelude.{◌≤◌, All, IfOk, OnOk, OnErr, length};
ghost use Rattle.std.specs.Io.KnownBytes.{Appends};
ghost use Rattle.edge_io.specs.Endings.{AppendsPart};
ghost use Rattle.edge_io.specs.Faults.{HasCause};
ghost use Rattle.log_sift.specs.Named.{AreStretchesWithin, IsSiftText, SiftsLog, most_log, shown_text};
ghost use Rattle.log_sift.specs.Sifted.{LiesInLog, stretches_text};

use crate::answer::{Stretch, Stretches};
use crate::telling::left_text;
use crate::whole::sift;
use base_types::{Bytes, OutOfMemory};
use edge_io::{Desk, Sink, SinkFailed, WholeStop, piece_buffer, read_whole, write_whole};
use std::alloc::Global;

/// A log may have so many bytes.
const MOST_LOG: usize = 1_099_511_627_776;

/// What a log comes to, line by line.
#[derive(Drop)]
pub enum SiftText {
    /// Which lines are left out, and why.
    LeftOut(Bytes),
    /// The stretches of the log that stay, one behind another.
    KeptLines { log: Bytes, stays: Stretches },
}

/// Reads a log from a desk by its name, and gives the lines that a judge takes, or says which are left out and why.
pub fn sift_named<D: Desk>(
    alloc: Global,
    desk: &mut D,
    log: &str,
    left: bool,
) -> Result<SiftText, WholeStop>
    ensures { SiftsLog left log.now (D.left desk.old) (D.left desk.new) (D.faults desk.old)
        (D.faults desk.new) result }
{
    let Ok(mut buffer) = piece_buffer(alloc) else {
        return Err(WholeStop::OutOfMemory);
    };
    match read_whole(alloc, desk, log, MOST_LOG, &mut buffer) {
        Ok(bytes) => match sift_text(alloc, bytes, left) {
            Ok(text) => Ok(text),
            Err(OutOfMemory) => Err(WholeStop::OutOfMemory),
        },
        Err(stop) => Err(stop),
    }
}

// What becomes of the lines of a log that isn't too large.
fn sift_text(alloc: Global, log: Bytes, left: bool) -> Result<SiftText, OutOfMemory>
    requires { length log ≤ most_log }
    ensures text { IfOk result (λ found. IsSiftText left log (shown_text found)) }
    ensures within { IfOk result AreStretchesWithin }
{
    let sifting = sift(alloc, log.as_slice())?;
    if left {
        let text = left_text(alloc, &sifting)?;
        return Ok(SiftText::LeftOut(Bytes::from_vec(text.into_bytes())));
    }
    Ok(SiftText::KeptLines {
        log,
        stays: sifting.stays,
    })
}

// Writes stretches of a log one behind another.
fn write_stretches<K: Sink>(out: &mut K, log: &[u8], stays: &[Stretch]) -> Result<(), SinkFailed>
    requires { All (LiesInLog log.now) stays.now }
    ensures whole { OnOk result (Appends (K.written out.old) (K.written out.new)
        (stretches_text log.now stays.now)) }
    ensures part { OnErr result (AppendsPart (K.written out.old) (K.written out.new)
        (stretches_text log.now stays.now)) }
    ensures cause { HasCause (K.faults out.old) (K.faults out.new) result }
{
    for stretch in stays {
        write_whole(out, &log[stretch.start..stretch.end])?;
    }
    Ok(())
}

/// Writes what a log comes to.
pub fn write_sifted<K: Sink>(out: &mut K, text: &SiftText) -> Result<(), SinkFailed>
    requires { AreStretchesWithin text.now }
    ensures whole { OnOk result (Appends (K.written out.old) (K.written out.new)
        (shown_text text.now)) }
    ensures part { OnErr result (AppendsPart (K.written out.old) (K.written out.new)
        (shown_text text.now)) }
    ensures cause { HasCause (K.faults out.old) (K.faults out.new) result }
{
    match text {
        SiftText::LeftOut(text) => write_whole(out, text.as_slice()),
        SiftText::KeptLines { log, stays } => write_stretches(
            out,
            log.as_slice(),
            stays.as_slice(),
        ),
    }
}
