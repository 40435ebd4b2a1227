ghost use Rattle.std.specs.Prelude.{◌≡◌, ℕ, List, Some, map, string_bytes};
ghost use Rattle.std.specs.Io.KnownBytes.{Appends};
ghost use Rattle.command_words.specs.Command.{IsAsked, Judge, TellsWords};
ghost use Rattle.context_laws.specs.Statements.{AreStatements};
ghost use Rattle.log_verdict.specs.Answers.{IsPlacementText};
ghost use Rattle.log_verdict.specs.Endings.{IsAnswered};
ghost use Rattle.kubepast.specs.Program.{Concludes, IsAnswer, IsOfTable};
ghost use Rattle.kubepast.specs.Running.{ReadsDesk, StatusTells};

use crate::reporting::report_of;
use command_words::read_words;
use context_intake::Stop;
use context_laws::statement_law;
use edge_io::{Desk, Sink, end_with};
use judge_pool::Gate;
use log_verdict::{Gates, Report};
use std::alloc::Global;
use std::marker::Sync;
use std::thread::Threads;

/// Does what the words of the command line ask for: reads the desk, writes the answer to the sink, and
/// gives the exit status. The text is made whole before it is written. Several threads decode the lines of a batch
/// and take the claims of the events; `gate` is told of each event, and `lines` of each line's index in its batch.
pub fn run<R: Threads + Sync, D: Desk, K: Sink, G: Gate, H: Gate>(
    rt: &R,
    alloc: Global,
    words: &[String],
    desk: &mut D,
    out: &mut K,
    gate: &G,
    lines: &H,
) -> u8
    ensures answer { (files : List ℕ → List ℕ)
        → TellsWords (map string_bytes words.now) (D.left desk.old) files
        → IsAnswered (IsAnswer (map string_bytes words.now) files) (D.faults desk.old)
        (D.faults desk.new) (K.faults out.old) (K.faults out.new) (K.written out.old)
        (K.written out.new) result }

    // Whether the desk tells its bytes or not.
    ensures table { IsAnswered (IsOfTable (map string_bytes words.now)) (D.faults desk.old)
        (D.faults desk.new) (K.faults out.old) (K.faults out.new) (K.written out.old)
        (K.written out.new) result }
    ensures status { StatusTells (map string_bytes words.now) (D.faults desk.old)
        (D.faults desk.new) (K.faults out.old) (K.faults out.new) (K.written out.old)
        (K.written out.new) result }
    ensures read { ReadsDesk (map string_bytes words.now) (D.left desk.old) (D.left desk.new)
        (desk.new ≡ desk.old) result }
    ensures printed { (setup log : List ℕ)
        → IsAsked (map string_bytes words.now) (Some (Judge setup log)) → result ≡ 0
        → (text : List ℕ) × IsPlacementText text
        × Appends (K.written out.old) (K.written out.new) text }

    // Of the history that a setup and a log tell, in `answer`.
    ensures statements { AreStatements }
{
    statement_law();
    let gates = Gates {
        events: gate,
        lines,
    };
    match read_words(alloc, words) {
        Ok(Some(command)) => conclude(out, report_of(rt, alloc, command, desk, gates)),
        Ok(None) => end_with(out, 2, b"usage\n"),
        Err(_) => 8,
    }
}

// Writes what was found, or why nothing was, and gives the exit status.
fn conclude<K: Sink>(out: &mut K, found: Result<Report, Stop>) -> u8
    ensures { Concludes found (K.faults out.old) (K.faults out.new) (K.written out.old)
        (K.written out.new) result }
{
    match found {
        Ok(report) => end_with(out, report.status.number(), report.text.as_slice()),
        Err(Stop::ReadFault) => end_with(out, 5, b"read fault\n"),
        Err(Stop::OutOfMemory) => 8,
    }
}
