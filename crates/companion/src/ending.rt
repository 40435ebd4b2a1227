ghost use Rattle.std.specs.Prelude.{OnOk, OnErr};
ghost use Rattle.std.specs.Io.KnownBytes.{Appends};
ghost use Rattle.edge_io.specs.Endings.{AppendsPart, Ends};
ghost use Rattle.edge_io.specs.Faults.{HasCause};
ghost use Rattle.companion.specs.Reported.{HasStretchesWithin, body_text};

use crate::report::ReportText;
use edge_io::{Sink, SinkFailed, write_whole};
use log_sift::write_sifted;

fn write_body<K: Sink>(out: &mut K, body: &ReportText) -> Result<(), SinkFailed>
    requires { HasStretchesWithin body.now }
    ensures whole { OnOk result (Appends (K.written out.old) (K.written out.new)
        (body_text body.now)) }
    ensures part { OnErr result (AppendsPart (K.written out.old) (K.written out.new)
        (body_text body.now)) }
    ensures cause { HasCause (K.faults out.old) (K.faults out.new) result }
{
    match body {
        ReportText::Fixed(text) => write_whole(out, text.as_bytes()),
        ReportText::Made(text) => write_whole(out, text.as_slice()),
        ReportText::Sifted(text) => write_sifted(out, text),
    }
}

/// Writes the text of an answer and gives its exit status, or 6 where a write failed.
pub fn end_with_body<K: Sink>(out: &mut K, status: u8, body: &ReportText) -> u8
    requires { HasStretchesWithin body.now }
    ensures { Ends status (body_text body.now) (K.faults out.old) (K.faults out.new)
        (K.written out.old) (K.written out.new) result }
{
    match write_body(out, body) {
        Ok(()) => status,
        Err(SinkFailed) => 6,
    }
}
