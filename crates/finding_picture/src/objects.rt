ghost use Rattle.std.specs.Prelude.{◌≡◌, ◌++◌, IfOk, OnOk, Some, map, option_map, string_bytes};
ghost use Rattle.std.specs.List.{flat_map};
ghost use Rattle.finding_picture.specs.Objects.{answer_key, key_on, logged_on, maker_text, object_name};
ghost use Rattle.finding_picture.specs.Objects.{object_rows, object_section, object_text, removal_row, removals_of};
ghost use Rattle.finding_picture.specs.Objects.{version_row};
ghost use Rattle.log_context.specs.Known.{versions_of};

use crate::lasting::since;
use crate::limits::{MOST_ROWS, MOST_VERSIONS};
use base_types::{ObjectKey, OutOfMemory, key_text};
use log_context::Context;
use markup::{EscapedText, first_of, push_rest};
use object_past::{Maker, Removal, Version};
use std::alloc::Global;
use write_groups::{LogEvent, Shown, line_at};

/// The section of an event whose answer isn't one about a single object.
pub const NO_OBJECT: &str = "<h2>What an answer would have been</h2>
<p>The event's answer isn't one about a single object.</p>
";

/// What stands before the key of the event's object.
pub const BEFORE_OBJECT: &str = "<h2>What an answer would have been</h2>
<p>The object is <code>";

/// What stands behind it, before the rows.
pub const BEHIND_OBJECT: &str =
    "</code>. Before its first version of all it is absent. A version is there up to the next one, or to the removal of
its UID. The versions are listed from the last one at or below the window's low end on.</p>
<table>
<tr><th scope=\"col\">At places</th><th scope=\"col\">An answer shows</th><th scope=\"col\">UID</th>
<th scope=\"col\">Written by</th></tr>
";

/// Appends what an answer about the object of the event with this line would have been at each place from `low` on.
#[tactic(auto, unfolding(crate::specs::Objects::object_section))]
pub fn push_object_section(
    alloc: Global,
    text: &mut String,
    context: &Context,
    line: u64,
    low: u64,
) -> Result<(), OutOfMemory>
    ensures { OnOk result (string_bytes text.new ≡ string_bytes text.old
        ++ object_section context.now line low) }
{
    match key_on(context.log(), line) {
        Some(key) => push_object(alloc, text, context, key, low)?,
        None => text.push_str(NO_OBJECT)?,
    }
    Ok(())
}

#[tactic(auto, unfolding(crate::specs::Objects::object_text))]
fn push_object(
    alloc: Global,
    text: &mut String,
    context: &Context,
    key: &ObjectKey,
    low: u64,
) -> Result<(), OutOfMemory>
    ensures { OnOk result (string_bytes text.new ≡ string_bytes text.old
        ++ object_text context.now (Some key.now) low) }
{
    push_object_name(alloc, text, key)?;
    let versions = versions_of(alloc, context, key)?;
    let removals = removals_of(alloc, context, key)?;
    push_object_rows(
        text,
        context.log(),
        low,
        versions.as_slice(),
        removals.as_slice(),
    )
}

#[tactic(auto, unfolding(crate::specs::Objects::object_name))]
fn push_object_name(alloc: Global, text: &mut String, key: &ObjectKey) -> Result<(), OutOfMemory>
    ensures { OnOk result (string_bytes text.new ≡ string_bytes text.old ++ object_name key.now) }
{
    let name = key_text(alloc, key)?;
    write!(
        text,
        "{BEFORE_OBJECT}{}{BEHIND_OBJECT}",
        EscapedText(name.as_str())
    )?;
    Ok(())
}

fn versions_of<'a>(
    alloc: Global,
    context: &'a Context,
    key: &ObjectKey,
) -> Result<Vec<&'a Version>, OutOfMemory>
    ensures { IfOk result (λ found. map (λ v. v.now) found.items
        ≡ versions_of context.now key.now) }
{
    let mut found = Vec::new(alloc);
    for version in context.versions() {
        if version.key == *key {
            found.push(version)?;
        }
    }
    Ok(found)
}

fn removals_of<'a>(
    alloc: Global,
    context: &'a Context,
    key: &ObjectKey,
) -> Result<Vec<&'a Removal>, OutOfMemory>
    ensures { IfOk result (λ found. map (λ r. r.now) found.items
        ≡ removals_of context.now key.now) }
{
    let mut found = Vec::new(alloc);
    for removal in context.past().removals() {
        if removal.key == *key {
            found.push(removal)?;
        }
    }
    Ok(found)
}

#[tactic(auto, unfolding(crate::specs::Objects::object_rows))]
fn push_object_rows(
    text: &mut String,
    log: &[LogEvent],
    low: u64,
    versions: &[&Version],
    removals: &[&Removal],
) -> Result<(), OutOfMemory>
    ensures { OnOk result (string_bytes text.new ≡ string_bytes text.old
        ++ object_rows log.now low (map (λ v. v.now) versions.now)
        (map (λ r. r.now) removals.now)) }
{
    let listed = since(low, versions);
    push_versions(text, log, first_of(listed, MOST_VERSIONS))?;
    push_removals(text, log, first_of(removals, MOST_ROWS))?;
    text.push_str("</table>\n")?;
    push_rest(
        text,
        listed.len(),
        versions.len(),
        "Earlier versions that aren't listed",
    )?;
    push_rest(
        text,
        MOST_VERSIONS,
        listed.len(),
        "Later versions that aren't listed",
    )?;
    push_rest(
        text,
        MOST_ROWS,
        removals.len(),
        "Removals that aren't listed",
    )
}

/// The object that the answer of the event with this line speaks of, where it is one.
pub fn key_on(log: &[LogEvent], line: u64) -> Option<&ObjectKey>
    ensures { option_map (λ key. key.now) result ≡ key_on log.now line }
{
    match logged_on(log, line) {
        Some(event) => answer_key(&event.answer),
        None => None,
    }
}

/// The event or checkpoint with this line.
pub fn logged_on(log: &[LogEvent], line: u64) -> Option<&LogEvent>
    ensures { option_map (λ event. event.now) result ≡ logged_on log.now line }
{
    log.iter().find(|event| event.line == line)
}

fn answer_key(answer: &Shown) -> Option<&ObjectKey>
    ensures { option_map (λ key. key.now) result ≡ answer_key answer.now }
{
    match answer {
        Shown::Made { item, .. } => Some(&item.key),
        Shown::Removed { key, .. } => Some(key),
        Shown::Opaque { .. } => None,
        Shown::Saw { item } => Some(&item.key),
        Shown::SawNone { key } => Some(key),
        Shown::SawSome { key } => Some(key),
        Shown::SawOther { key } => Some(key),
        Shown::Listed { .. } => None,
        Shown::Free => None,
        Shown::Aside => None,
    }
}

fn push_versions(
    text: &mut String,
    log: &[LogEvent],
    versions: &[&Version],
) -> Result<(), OutOfMemory>
    ensures { OnOk result (string_bytes text.new ≡ string_bytes text.old
        ++ flat_map (version_row log.now) (map (λ v. v.now) versions.now)) }
{
    for version in versions {
        push_version(text, log, version)?;
    }
    Ok(())
}

fn push_removals(
    text: &mut String,
    log: &[LogEvent],
    removals: &[&Removal],
) -> Result<(), OutOfMemory>
    ensures { OnOk result (string_bytes text.new ≡ string_bytes text.old
        ++ flat_map (removal_row log.now) (map (λ r. r.now) removals.now)) }
{
    for removal in removals {
        push_removal(text, log, removal)?;
    }
    Ok(())
}

#[tactic(auto, unfolding(crate::specs::Objects::version_row))]
fn push_version(text: &mut String, log: &[LogEvent], version: &Version) -> Result<(), OutOfMemory>
    ensures { OnOk result (string_bytes text.new ≡ string_bytes text.old
        ++ version_row log.now version.now) }
{
    let revision = version.revision.get();
    let uid = EscapedText(version.uid.as_str());
    write!(
        text,
        "<tr><td>from {revision} on</td><td>its revision {revision}</td><td><code>{uid}</code></td><td>"
    )?;
    push_maker(text, log, version.maker)?;
    text.push_str("</td></tr>\n")?;
    Ok(())
}

/// Appends who wrote a version.
#[tactic(auto, unfolding(crate::specs::Objects::maker_text))]
pub fn push_maker(text: &mut String, log: &[LogEvent], maker: Maker) -> Result<(), OutOfMemory>
    ensures { OnOk result (string_bytes text.new ≡ string_bytes text.old
        ++ maker_text log.now maker) }
{
    match maker {
        Maker::Snapshot => text.push_str("the snapshot")?,
        Maker::Event(position) => write!(text, "line {} ", line_at(log, position))?,
        Maker::Unknown => text.push_str("an unrecorded write")?,
    }
    Ok(())
}

#[tactic(auto, unfolding(crate::specs::Objects::removal_row))]
fn push_removal(text: &mut String, log: &[LogEvent], removal: &Removal) -> Result<(), OutOfMemory>
    ensures { OnOk result (string_bytes text.new ≡ string_bytes text.old
        ++ removal_row log.now removal.now) }
{
    let range = removal.range;
    let line = line_at(log, range.event);
    let uid = EscapedText(removal.uid.as_str());
    let low = range.low;
    let high = range.high;
    writeln!(
        text,
        "<tr><td>from a place of {low} to {high} on</td><td>that it is absent</td>\
        <td><code>{uid}</code></td><td>line {line}</td></tr>"
    )?;
    Ok(())
}
