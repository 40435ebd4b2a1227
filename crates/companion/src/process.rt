ghost use Rattle.std.specs.Prelude.{ℕ, List, map, string_bytes};
ghost use Rattle.std.specs.Process.{exit_status};
ghost use Rattle.companion_words.specs.Command.{TellsWords};
ghost use Rattle.log_verdict.specs.Endings.{IsAnswered};
ghost use Rattle.companion.specs.Process.{EndsCall, EndsProcess, EndsWords};
ghost use Rattle.companion.specs.Program.{IsAnswer};

use crate::running::run;
use base_types::OutOfMemory;
use edge_io::{Desk, FileDesk, Sink, end_with};
use judge_pool::FreeGate;
use std::io::Input;
use std::marker::Sync;
use std::process::ExitCode;
use std::rt::Files;
use std::thread::Threads;

/// Want of memory before the words are known.
const NO_MEMORY: u8 = 8;

/// Runs the program on the words of the command line, where there are some, and on files.
pub fn end_of<R: Threads + Sync + Files + Input + AllocGlobal, K: Sink>(
    rt: &R,
    words: Result<Option<Vec<String>>, OutOfMemory>,
    out: &mut K,
) -> ExitCode
    ensures { EndsProcess words (K.faults out.old) (K.faults out.new) (K.written out.old)
        (K.written out.new) (exit_status result) }
{
    match words {
        Ok(Some(words)) => end_of_words(rt, &words, out),
        Ok(None) => ExitCode::from(end_with(out, 2, b"usage\n")),
        Err(_) => ExitCode::from(NO_MEMORY),
    }
}

// Runs the program on files.
fn end_of_words<R: Threads + Sync + Files + Input + AllocGlobal, K: Sink>(
    rt: &R,
    words: &[String],
    out: &mut K,
) -> ExitCode
    ensures { EndsWords (map string_bytes words.now) (K.faults out.old) (K.faults out.new)
        (K.written out.old) (K.written out.new) (exit_status result) }
{
    match FileDesk::new(rt.alloc(), rt, words) {
        Ok(mut desk) => exit_of(rt, words, &mut desk, out),
        Err(_) => ExitCode::from(NO_MEMORY),
    }
}

// The exit status is that of `run`.
fn exit_of<R: Threads + Sync + AllocGlobal, D: Desk, K: Sink>(
    rt: &R,
    words: &[String],
    desk: &mut D,
    out: &mut K,
) -> ExitCode
    ensures answer { (files : List ℕ → List ℕ)
        → TellsWords (map string_bytes words.now) (D.left desk.old) files
        → IsAnswered (IsAnswer (map string_bytes words.now) files) (D.faults desk.old)
        (D.faults desk.new) (K.faults out.old) (K.faults out.new) (K.written out.old)
        (K.written out.new) (exit_status result) }
    ensures ends { EndsCall (map string_bytes words.now) (D.faults desk.old) (D.faults desk.new)
        (K.faults out.old) (K.faults out.new) (K.written out.old) (K.written out.new)
        (exit_status result) }
{
    let status = run(rt, rt.alloc(), words, desk, out, &FreeGate, &FreeGate);
    ExitCode::from(status)
}
