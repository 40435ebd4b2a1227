ghost use Rattle.std.specs.Prelude.{◌≡◌, ◌++◌, OnOk, count_by, flat_map, string_bytes};
ghost use Rattle.log_picture.specs.Counts.{KindsAddUp, counts_text, decisions_text, has_decision, kind_row};
ghost use Rattle.log_picture.specs.Counts.{row_text, same_decision, totals_text};

use crate::kind::{AnswerKind, KINDS, count_of, kind_words};
use base_types::{Decision, OutOfMemory};
use write_groups::LogEvent;

/// What stands in front of the table's rows.
pub const COUNTS_HEAD: &str = r#"<h2>How the events were judged</h2>
<table>
<thead><tr><th scope="col">What the answer says</th><th scope="col">Events and checkpoints</th></tr></thead>
<tbody>
"#;

fn same_decision(decision: Decision, other: Decision) -> bool
    ensures { result ≡ same_decision decision other }
{
    match decision {
        Decision::Allow => matches!(other, Decision::Allow),
        Decision::Forbid => matches!(other, Decision::Forbid),
    }
}

fn has_decision(event: &LogEvent, decision: Decision) -> bool
    ensures { result ≡ has_decision decision event.now }
{
    match event.decision {
        Some(decided) => same_decision(decision, decided),
        None => false,
    }
}

// How many events have this judged decision.
fn decision_count(log: &[LogEvent], decision: Decision) -> usize
    ensures { result ≡ count_by (has_decision decision) log.now }
{
    log.iter()
        .filter(|event| has_decision(event, decision))
        .count()
}

/// Appends the table of how many events were judged how.
#[tactic(auto, unfolding(crate::specs::Counts::counts_text))]
pub fn append_counts(text: &mut String, log: &[LogEvent]) -> Result<(), OutOfMemory>
    ensures { OnOk result (string_bytes text.new ≡ string_bytes text.old ++ counts_text log.now) }
{
    text.push_str(COUNTS_HEAD)?;
    append_kinds(text, log, &KINDS)?;
    append_totals(text, log)
}

/// The counts of the kinds add up to that of all events and checkpoints.
pub fn counts_law()
    ensures { KindsAddUp }
{}

#[tactic(auto, unfolding(crate::specs::Counts::totals_text))]
fn append_totals(text: &mut String, log: &[LogEvent]) -> Result<(), OutOfMemory>
    ensures { OnOk result (string_bytes text.new ≡ string_bytes text.old ++ totals_text log.now) }
{
    append_row(text, "all", log.len())?;
    let allowed = decision_count(log, Decision::Allow);
    let forbidden = decision_count(log, Decision::Forbid);
    append_decisions(text, allowed, forbidden)?;
    Ok(())
}

fn append_kinds(
    text: &mut String,
    log: &[LogEvent],
    kinds: &[AnswerKind],
) -> Result<(), OutOfMemory>
    ensures { OnOk result (string_bytes text.new ≡ string_bytes text.old
        ++ flat_map (kind_row log.now) kinds.now) }
{
    for kind in kinds {
        append_kind(text, log, *kind)?;
    }
    Ok(())
}

#[tactic(auto, unfolding(crate::specs::Counts::kind_row))]
fn append_kind(text: &mut String, log: &[LogEvent], kind: AnswerKind) -> Result<(), OutOfMemory>
    ensures { OnOk result (string_bytes text.new ≡ string_bytes text.old ++ kind_row log.now kind) }
{
    append_row(text, kind_words(kind), count_of(log, kind))
}

#[tactic(auto, unfolding(crate::specs::Counts::row_text))]
fn append_row(text: &mut String, words: &str, count: usize) -> Result<(), OutOfMemory>
    ensures { OnOk result (string_bytes text.new ≡ string_bytes text.old
        ++ row_text words.now count) }
{
    writeln!(
        text,
        "<tr><th scope=\"row\">{words}</th><td>{count}</td></tr>"
    )?;
    Ok(())
}

#[tactic(auto, unfolding(crate::specs::Counts::decisions_text))]
fn append_decisions(text: &mut String, allowed: usize, forbidden: usize) -> Result<(), OutOfMemory>
    ensures { OnOk result (string_bytes text.new ≡ string_bytes text.old
        ++ decisions_text allowed forbidden) }
{
    write!(
        text,
        "</tbody>\n</table>\n<p>Judged decisions: {allowed} allow, {forbidden} forbid.</p>\n"
    )?;
    Ok(())
}
