ghost use Rattle.std.specs.Prelude.{◌≡◌, ◌∷◌, [], ◌++◌, IfOk, OnOk, count_by, decimal, string_bytes};
ghost use Rattle.verdict_text.specs.Words.{ended, spaced};
ghost use Rattle.kubepast.specs.Summary.{counts_text, is_at, is_made, is_nowhere, is_removed, lines_of};
ghost use Rattle.kubepast.specs.Summary.{summary_text, verdict_word};

use base_types::{Bytes, OutOfMemory, Outcome, PlacedAnswer, PlacedLine};
use std::alloc::Global;

/// The summary of a made case.
pub fn summary(
    alloc: Global,
    number: u64,
    events: u32,
    outcome: &Outcome,
) -> Result<Bytes, OutOfMemory>
    ensures { IfOk result (λ text. text ≡ summary_text number events outcome.now) }
{
    let mut text = String::new(alloc);
    writeln!(text, "case {number} {events}")?;
    append_counts(&mut text, lines_of(outcome))?;
    writeln!(text, "{}", verdict_word(outcome))?;
    Ok(Bytes::from_vec(text.into_bytes()))
}

fn lines_of(outcome: &Outcome) -> &[PlacedLine]
    ensures { result.now ≡ lines_of outcome.now }
{
    match outcome {
        Outcome::Explained(placement) => placement.as_slice(),
        Outcome::Unexplained { .. } => &[],
    }
}

fn verdict_word(outcome: &Outcome) -> &'static str
    ensures { result.now ≡ verdict_word outcome.now }
{
    match outcome {
        Outcome::Explained(_) => "explained",
        Outcome::Unexplained { .. } => "unexplained",
    }
}

fn append_counts(text: &mut String, lines: &[PlacedLine]) -> Result<(), OutOfMemory>
    ensures { OnOk result (string_bytes text.new ≡ string_bytes text.old ++ counts_text lines.now) }
{
    append_count(text, "made", made_lines(lines))?;
    append_count(text, "removed", removed_lines(lines))?;
    append_count(text, "at", lines_at_places(lines))?;
    append_count(text, "none", lines_nowhere(lines))?;
    Ok(())
}

// A word, and how many lines of the placement have it.
fn append_count(text: &mut String, word: &str, count: usize) -> Result<(), OutOfMemory>
    ensures { OnOk result (string_bytes text.new ≡ string_bytes text.old ++ ended
        (spaced (word.now ∷ decimal count ∷ []))) }
{
    writeln!(text, "{word} {count}")?;
    Ok(())
}

fn made_lines(lines: &[PlacedLine]) -> usize
    ensures { result ≡ count_by (λ line. is_made line.answer) lines.now }
{
    lines
        .iter()
        .filter(|line| matches!(line.answer, PlacedAnswer::Made(_)))
        .count()
}

fn removed_lines(lines: &[PlacedLine]) -> usize
    ensures { result ≡ count_by (λ line. is_removed line.answer) lines.now }
{
    lines
        .iter()
        .filter(|line| matches!(line.answer, PlacedAnswer::Removed(_)))
        .count()
}

fn lines_at_places(lines: &[PlacedLine]) -> usize
    ensures { result ≡ count_by (λ line. is_at line.answer) lines.now }
{
    lines
        .iter()
        .filter(|line| matches!(line.answer, PlacedAnswer::At(_)))
        .count()
}

fn lines_nowhere(lines: &[PlacedLine]) -> usize
    ensures { result ≡ count_by (λ line. is_nowhere line.answer) lines.now }
{
    lines
        .iter()
        .filter(|line| matches!(line.answer, PlacedAnswer::Nowhere))
        .count()
}
