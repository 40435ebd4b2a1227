ghost use Rattle.std.specs.Prelude.{◌≡◌, ◌++◌, IfOk, OnOk, string_bytes};
ghost use Rattle.log_moments.specs.Texts.{answer_text, line_text, strict_text};
ghost use Rattle.verdict_text.specs.Words.{ended};

use crate::answer::{LineMoment, StrictAnswer};
use base_types::{Bytes, OutOfMemory};
use std::alloc::Global;

/// The text of a strict answer. Each of its lines ends with a newline.
pub fn print_strict(alloc: Global, answer: &StrictAnswer) -> Result<Bytes, OutOfMemory>
    ensures { IfOk result (λ text. text ≡ answer_text answer.now) }
{
    let mut text = String::new(alloc);
    match answer {
        StrictAnswer::Strict(lines) => append_lines(&mut text, lines.as_slice())?,
        StrictAnswer::Crossed { first, second } => writeln!(text, "crossed {first} {second}")?,
    }
    Ok(Bytes::from_vec(text.into_bytes()))
}

fn append_lines(text: &mut String, lines: &[LineMoment]) -> Result<(), OutOfMemory>
    ensures { OnOk result (string_bytes text.new ≡ string_bytes text.old ++ strict_text lines.now) }
{
    writeln!(text, "strict {}", lines.len())?;
    for line in lines {
        append_line(text, line)?;
    }
    Ok(())
}

fn append_line(text: &mut String, line: &LineMoment) -> Result<(), OutOfMemory>
    ensures { OnOk result (string_bytes text.new ≡ string_bytes text.old
        ++ ended (line_text line.now)) }
{
    let nanos = line.moment.0;
    writeln!(text, "{} {nanos}", line.line)?;
    Ok(())
}
