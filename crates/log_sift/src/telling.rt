ghost use Rattle.std.specs.Prelude.{◌≡◌, ◌++◌, IfOk, OnOk, string_bytes};
ghost use Rattle.verdict_text.specs.Words.{ended};
ghost use Rattle.log_sift.specs.Telling.{left_line_text, left_lines_text, left_text};

use crate::answer::{LeftCause, LeftLine, Sifting};
use base_types::OutOfMemory;
use std::alloc::Global;

fn append_left_line(text: &mut String, left: &LeftLine) -> Result<(), OutOfMemory>
    ensures { OnOk result (string_bytes text.new ≡ string_bytes text.old
        ++ ended (left_line_text left.now)) }
{
    let line = left.line;
    match left.cause {
        LeftCause::LineTooLong => writeln!(text, "{line} limit line")?,
        LeftCause::Rule(code) => {
            let number = code.number();
            writeln!(text, "{line} M{number}")?;
        }
    }
    Ok(())
}

fn append_left_lines(text: &mut String, lines: &[LeftLine]) -> Result<(), OutOfMemory>
    ensures { OnOk result (string_bytes text.new ≡ string_bytes text.old
        ++ left_lines_text lines.now) }
{
    for left in lines {
        append_left_line(text, left)?;
    }
    Ok(())
}

/// The number of each line that is left out, and why: `limit line`, or the rule from `M1` to `M12`; and then how many
/// lines stay that aren't blank, and how many are left out. Each of these lines ends with a newline.
pub fn left_text(alloc: Global, sifting: &Sifting) -> Result<String, OutOfMemory>
    ensures { IfOk result (λ text. string_bytes text ≡ left_text sifting.now) }
{
    let mut text = String::new(alloc);
    append_left_lines(&mut text, sifting.left.as_slice())?;
    let kept = sifting.kept;
    let left = sifting.left.len();
    writeln!(text, "kept {kept} left {left}")?;
    Ok(text)
}
