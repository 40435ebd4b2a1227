ghost use Rattle.std.specs.Prelude.{◌≡◌, ◌++◌, [], ◌∷◌, List, All, OnOk, IfOk, codes, decimal, length, string_bytes};
ghost use Rattle.base_types.specs.Escapes.{escaped};
ghost use Rattle.base_types.specs.declared.verdict.placed.PlacedLine.{PlacedLine};
ghost use Rattle.verdict_text.specs.Placed.{FitsPlaced};
ghost use Rattle.verdict_text.specs.Reading.{IsPlacement};
ghost use Rattle.verdict_text.specs.Words.{IsNumber, ended, spaced};
ghost use Rattle.verdict_text.specs.Outcome.{code_text, explained_text, outcome_text, write_text, writes_text};

use crate::placed::append_placed;
use base_types::{Bytes, OutOfMemory, Outcome, PlacedLine, Reason, Text, WriteLine, escape};
use std::alloc::Global;

/// The text of an outcome, as `judge` prints it. Each of its lines ends with a newline. That of an explained log is
/// one that `read_placement` takes.
pub fn print_outcome(alloc: Global, outcome: &Outcome) -> Result<Bytes, OutOfMemory>
    ensures text { IfOk result (λ text. text ≡ outcome_text outcome.now) }
    ensures placement { OnOk result ((lines : List PlacedLine) → outcome.now
        ≡ Outcome.Explained lines
        → IsPlacement lines) }
{
    let mut text = String::new(alloc);
    append_outcome(alloc, &mut text, outcome)?;
    Ok(Bytes::from_vec(text.into_bytes()))
}

fn append_outcome(alloc: Global, text: &mut String, outcome: &Outcome) -> Result<(), OutOfMemory>
    ensures text { OnOk result (string_bytes text.new ≡ string_bytes text.old ++ outcome_text
        outcome.now) }
    ensures placement { OnOk result ((lines : List PlacedLine) → outcome.now
        ≡ Outcome.Explained lines
        → IsPlacement lines) }
{
    match outcome {
        Outcome::Explained(placement) => append_explained(text, placement.as_slice()),
        Outcome::Unexplained {
            line,
            audit_id,
            reason,
            low,
            high,
            writes,
        } => {
            append_unexplained(alloc, text, *line, audit_id, *reason, *low, *high)?;
            append_writes(text, writes.as_slice())
        }
    }
}

// The line in front of the writes.
fn append_unexplained(
    alloc: Global,
    text: &mut String,
    line: u64,
    audit_id: &Text,
    reason: Reason,
    low: u64,
    high: u64,
) -> Result<(), OutOfMemory>
    ensures { OnOk result (string_bytes text.new ≡ string_bytes text.old ++ ended
        (spaced (codes "unexplained" ∷ decimal line ∷ escaped audit_id.now ∷ code_text reason
        ∷ decimal low ∷ decimal high ∷ []))) }
{
    let name = escape(alloc, audit_id)?;
    let code = reason.number();
    writeln!(
        text,
        "unexplained {line} {} U{code} {low} {high}",
        name.as_str()
    )?;
    Ok(())
}

fn append_explained(text: &mut String, lines: &[PlacedLine]) -> Result<(), OutOfMemory>
    ensures text { OnOk result (string_bytes text.new ≡ string_bytes text.old ++
        explained_text lines.now) }
    ensures fits { OnOk result (All FitsPlaced lines.now) }
    ensures counted { IsNumber (length lines.now) }
{
    let count = lines.len();
    writeln!(text, "explained {count}")?;
    for placed in lines {
        append_placed(text, placed)?;
    }
    Ok(())
}

fn append_writes(text: &mut String, writes: &[WriteLine]) -> Result<(), OutOfMemory>
    ensures { OnOk result (string_bytes text.new ≡ string_bytes text.old ++ writes_text
        writes.now) }
{
    for write in writes {
        append_write(text, write)?;
    }
    Ok(())
}

fn append_write(text: &mut String, write: &WriteLine) -> Result<(), OutOfMemory>
    ensures { OnOk result (string_bytes text.new ≡ string_bytes text.old ++ ended
        (write_text write.now)) }
{
    match write {
        WriteLine::Made {
            revision,
            line,
            key,
        } => writeln!(text, "made {revision} {line} {}", key.as_str())?,
        WriteLine::Removed {
            low,
            high,
            line,
            key,
        } => writeln!(text, "removed {low} {high} {line} {}", key.as_str())?,
    }
    Ok(())
}
