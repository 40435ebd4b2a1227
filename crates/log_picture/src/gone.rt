ghost use Rattle.std.specs.Prelude.{◌≡◌, ◌++◌, OnOk, flat_map, map, string_bytes};
ghost use Rattle.log_picture.specs.Gone.{place_of, place_text, removal_row, removals_table, removals_text};
ghost use Rattle.log_picture.specs.Gone.{removed_at, removed_by, removed_text};

use crate::limits::REMOVAL_LIMIT;
use crate::spreading::{append_rest, spread};
use base_types::{OutOfMemory, PlacedAnswer, PlacedLine, key_text};
use markup::EscapedText;
use object_past::Removal;
use std::alloc::Global;
use write_groups::{LogEvent, line_at};

/// What stands in front of the table's rows.
pub const REMOVALS_HEAD: &str = r#"<h2>Removals</h2>
<p>A delete shows no revision, so a removal took place at one of a range of places. Place 18446744073709551615 stands
behind all revisions.</p>
<table>
<thead><tr><th scope="col">Line</th><th scope="col">Object</th><th scope="col">Uid</th>
<th scope="col">Last revision</th><th scope="col">Range of places</th><th scope="col">Placed at</th></tr></thead>
<tbody>
"#;

/// What stands behind a table's rows.
pub const TABLE_END: &str = "</tbody>\n</table>\n";

fn removed_at(answer: PlacedAnswer) -> Option<u64>
    ensures { result ≡ removed_at answer }
{
    match answer {
        PlacedAnswer::Removed(place) => Some(place),
        PlacedAnswer::Made(_) => None,
        PlacedAnswer::At(_) => None,
        PlacedAnswer::Nowhere => None,
    }
}

fn removed_by(line: u64, placed: &PlacedLine) -> Option<u64>
    ensures { result ≡ removed_by line placed.now }
{
    if placed.line == line {
        removed_at(placed.answer)
    } else {
        None
    }
}

// Where the placement puts the removal of the event of this number.
fn place_of(log: &[LogEvent], lines: &[PlacedLine], number: u32) -> Option<u64>
    ensures { result ≡ place_of log.now lines.now number }
{
    match lines.get(number as usize) {
        Some(placed) => removed_by(line_at(log, number), placed),
        None => None,
    }
}

/// Appends the table of removals, with where the placement puts each.
#[tactic(auto, unfolding(crate::specs::Gone::removals_text))]
pub fn append_removals(
    alloc: Global,
    text: &mut String,
    log: &[LogEvent],
    lines: &[PlacedLine],
    removals: &[&Removal],
) -> Result<(), OutOfMemory>
    ensures { OnOk result (string_bytes text.new ≡ string_bytes text.old
        ++ removals_text log.now lines.now (map (λ one. one.now) removals.now)) }
{
    append_listed(alloc, text, log, lines, removals)?;
    append_rest(
        alloc,
        text,
        removals,
        REMOVAL_LIMIT,
        "Removals that aren't listed",
    )
}

#[tactic(auto, unfolding(crate::specs::Gone::removals_table))]
fn append_listed(
    alloc: Global,
    text: &mut String,
    log: &[LogEvent],
    lines: &[PlacedLine],
    removals: &[&Removal],
) -> Result<(), OutOfMemory>
    ensures { OnOk result (string_bytes text.new ≡ string_bytes text.old
        ++ removals_table log.now lines.now (map (λ one. one.now) removals.now)) }
{
    let listed = spread(alloc, removals, REMOVAL_LIMIT)?;
    text.push_str(REMOVALS_HEAD)?;
    append_rows(alloc, text, log, lines, listed.as_slice())?;
    text.push_str(TABLE_END)?;
    Ok(())
}

fn append_rows(
    alloc: Global,
    text: &mut String,
    log: &[LogEvent],
    lines: &[PlacedLine],
    removals: &[&Removal],
) -> Result<(), OutOfMemory>
    ensures { OnOk result (string_bytes text.new ≡ string_bytes text.old ++ flat_map
        (removal_row log.now lines.now) (map (λ one. one.now) removals.now)) }
{
    for removal in removals {
        append_row(alloc, text, log, lines, removal)?;
    }
    Ok(())
}

#[tactic(auto, unfolding(crate::specs::Gone::removal_row))]
fn append_row(
    alloc: Global,
    text: &mut String,
    log: &[LogEvent],
    lines: &[PlacedLine],
    removal: &Removal,
) -> Result<(), OutOfMemory>
    ensures { OnOk result (string_bytes text.new ≡ string_bytes text.old
        ++ removal_row log.now lines.now removal.now) }
{
    append_removed(alloc, text, log, removal)?;
    append_place(text, place_of(log, lines, removal.range.event))?;
    text.push_str("</td></tr>\n")?;
    Ok(())
}

#[tactic(auto, unfolding(crate::specs::Gone::removed_text))]
fn append_removed(
    alloc: Global,
    text: &mut String,
    log: &[LogEvent],
    removal: &Removal,
) -> Result<(), OutOfMemory>
    ensures { OnOk result (string_bytes text.new ≡ string_bytes text.old
        ++ removed_text log.now removal.now) }
{
    let line = line_at(log, removal.range.event);
    let key = key_text(alloc, &removal.key)?;
    let last = removal.last.get();
    let range = removal.range;
    write!(
        text,
        "<tr><td>{line}</td><td>{}</td><td>{}</td><td>{last}</td><td>{} to {}</td><td>",
        EscapedText(key.as_str()),
        EscapedText(removal.uid.as_str()),
        range.low,
        range.high
    )?;
    Ok(())
}

#[tactic(auto, unfolding(crate::specs::Gone::place_text))]
fn append_place(text: &mut String, place: Option<u64>) -> Result<(), OutOfMemory>
    ensures { OnOk result (string_bytes text.new ≡ string_bytes text.old ++ place_text place) }
{
    match place {
        Some(place) => write!(text, "{place}")?,
        None => text.push_str("not placed")?,
    }
    Ok(())
}
