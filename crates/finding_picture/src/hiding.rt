ghost use Rattle.std.specs.Prelude.{◌≡◌, ◌++◌, IfOk, None, OnOk, Some, map, string_bytes};
ghost use Rattle.std.specs.List.{flat_map};
ghost use Rattle.history_model.specs.Windows.{low_end};
ghost use Rattle.rbac_timeline.specs.Hidden.{covers};
ghost use Rattle.write_groups.specs.Modelled.{event_of};
ghost use Rattle.finding_picture.specs.Hiding.{cover_row, hidden_row, hides, hiding_in, hiding_rows, hiding_section};
ghost use Rattle.finding_picture.specs.Hiding.{hiding_text, is_unrecorded, name_text, namespace_text, own_rows};
ghost use Rattle.finding_picture.specs.Hiding.{unrecorded_in};
ghost use Rattle.log_context.specs.Histories.{history_of};

use crate::limits::MOST_ROWS;
use crate::objects::key_on;
use base_types::{Cover, CoverName, ObjectKey, OutOfMemory, Text, covers};
use log_context::Context;
use markup::{EscapedText, first_of, push_rest};
use std::alloc::Global;
use write_groups::{LogEvent, Shown, window_of};

/// What stands before the unrecorded writes of a log.
pub const BEFORE_HIDING: &str = "<h2>Unrecorded writes</h2>
<p>The log doesn't tell what these writes left. Behind the place that is named, an object that a row stands for may be
anything until a recorded revision shows it again.</p>
";

/// What stands before those that may have changed the event's object.
pub const BEFORE_OWN: &str = "<h2>Unrecorded writes that may have changed the event's object</h2>
<p>The log doesn't tell what these writes left. Behind the place that is named, the object may be anything until a
recorded revision shows it again.</p>
";

/// What stands before the rows.
pub const HIDING_COLUMNS: &str = "<table>
<tr><th scope=\"col\">Line</th><th scope=\"col\">Hides</th><th scope=\"col\">Group</th>
<th scope=\"col\">Resource</th><th scope=\"col\">Namespace</th><th scope=\"col\">Name</th></tr>
";

/// Appends the unrecorded writes that may have changed the object of the event with this line; where it isn't about a
/// single object, all of the log.
#[tactic(auto, unfolding(crate::specs::Hiding::hiding_section))]
pub fn push_hiding(
    alloc: Global,
    text: &mut String,
    context: &Context,
    line: u64,
) -> Result<(), OutOfMemory>
    ensures { OnOk result (string_bytes text.new ≡ string_bytes text.old
        ++ hiding_section context.now line) }
{
    match key_on(context.log(), line) {
        Some(key) => push_own(alloc, text, context, key)?,
        None => push_all(alloc, text, context)?,
    }
    Ok(())
}

#[tactic(auto, unfolding(crate::specs::Hiding::hiding_text))]
fn push_all(alloc: Global, text: &mut String, context: &Context) -> Result<(), OutOfMemory>
    ensures { OnOk result (string_bytes text.new ≡ string_bytes text.old
        ++ hiding_text context.now None) }
{
    write!(text, "{BEFORE_HIDING}{HIDING_COLUMNS}")?;
    let writes = unrecorded_in(alloc, context.log())?;
    push_hiding_rows(text, context, writes.as_slice())
}

#[tactic(auto, unfolding(crate::specs::Hiding::hiding_text))]
fn push_own(
    alloc: Global,
    text: &mut String,
    context: &Context,
    key: &ObjectKey,
) -> Result<(), OutOfMemory>
    ensures { OnOk result (string_bytes text.new ≡ string_bytes text.old
        ++ hiding_text context.now (Some key.now)) }
{
    let log = context.log();
    let own = hiding_in(alloc, log, key)?;
    let all = unrecorded_in(alloc, log)?;
    push_own_rows(text, context, own.as_slice(), all.as_slice())
}

#[tactic(auto, unfolding(crate::specs::Hiding::own_rows))]
fn push_own_rows(
    text: &mut String,
    context: &Context,
    own: &[&LogEvent],
    all: &[&LogEvent],
) -> Result<(), OutOfMemory>
    ensures { OnOk result (string_bytes text.new ≡ string_bytes text.old
        ++ own_rows (history_of context.now) (map (λ event. event.now) own.now)
        (map (λ event. event.now) all.now)) }
{
    write!(text, "{BEFORE_OWN}{HIDING_COLUMNS}")?;
    push_hiding_rows(text, context, own)?;
    push_rest(
        text,
        own.len(),
        all.len(),
        "Other unrecorded writes, of other objects alone",
    )
}

// The first of these as rows, and how many others there are.
#[tactic(auto, unfolding(crate::specs::Hiding::hiding_rows))]
fn push_hiding_rows(
    text: &mut String,
    context: &Context,
    writes: &[&LogEvent],
) -> Result<(), OutOfMemory>
    ensures { OnOk result (string_bytes text.new ≡ string_bytes text.old
        ++ hiding_rows (history_of context.now) (map (λ event. event.now) writes.now)) }
{
    push_hidden_rows(text, context, first_of(writes, MOST_ROWS))?;
    text.push_str("</table>\n")?;
    push_rest(
        text,
        MOST_ROWS,
        writes.len(),
        "Unrecorded writes that aren't listed",
    )
}

fn is_unrecorded(event: &LogEvent) -> bool
    ensures { result ≡ is_unrecorded event.now }
{
    matches!(&event.answer, Shown::Opaque { .. })
}

fn unrecorded_in(alloc: Global, log: &[LogEvent]) -> Result<Vec<&LogEvent>, OutOfMemory>
    ensures { IfOk result (λ writes. map (λ event. event.now) writes.items
        ≡ unrecorded_in log.now) }
{
    let mut writes = Vec::new(alloc);
    for event in log {
        if is_unrecorded(event) {
            writes.push(event)?;
        }
    }
    Ok(writes)
}

fn covers_key(cover: &Cover, key: &ObjectKey) -> bool
    ensures { result ≡ covers cover.now key.now }
{
    covers(cover, key)
}

// Whether it is an unrecorded write that may have changed the object of this key.
fn hides(key: &ObjectKey, event: &LogEvent) -> bool
    ensures { result ≡ hides key.now event.now }
{
    match &event.answer {
        Shown::Opaque { cover } => covers_key(cover, key),
        _ => false,
    }
}

fn hiding_in<'a>(
    alloc: Global,
    log: &'a [LogEvent],
    key: &ObjectKey,
) -> Result<Vec<&'a LogEvent>, OutOfMemory>
    ensures { IfOk result (λ writes. map (λ event. event.now) writes.items
        ≡ hiding_in key.now log.now) }
{
    let mut writes = Vec::new(alloc);
    for event in log {
        if hides(key, event) {
            writes.push(event)?;
        }
    }
    Ok(writes)
}

fn push_hidden_rows(
    text: &mut String,
    context: &Context,
    writes: &[&LogEvent],
) -> Result<(), OutOfMemory>
    ensures { OnOk result (string_bytes text.new ≡ string_bytes text.old
        ++ flat_map (hidden_row (history_of context.now)) (map (λ event. event.now) writes.now)) }
{
    for event in writes {
        push_hidden(text, context, event)?;
    }
    Ok(())
}

// A row of an unrecorded write, and nothing of every other event.
#[tactic(auto, unfolding(crate::specs::Hiding::hidden_row))]
fn push_hidden(text: &mut String, context: &Context, event: &LogEvent) -> Result<(), OutOfMemory>
    ensures { OnOk result (string_bytes text.new ≡ string_bytes text.old ++ hidden_row
        (history_of context.now) event.now) }
{
    match &event.answer {
        Shown::Opaque { cover } => push_cover(text, event.line, low_of(context, event), cover),
        _ => Ok(()),
    }
}

// The lowest place of an event's window.
fn low_of(context: &Context, event: &LogEvent) -> u64
    ensures { result ≡ low_end (history_of context.now) (event_of event.now) }
{
    window_of(context.windows(), context.setup().start, event).low
}

#[tactic(auto, unfolding(crate::specs::Hiding::cover_row))]
fn push_cover(text: &mut String, line: u64, low: u64, cover: &Cover) -> Result<(), OutOfMemory>
    ensures { OnOk result (string_bytes text.new ≡ string_bytes text.old
        ++ cover_row line low cover.now) }
{
    let group = EscapedText(cover.group.as_str());
    let resource = EscapedText(cover.resource.as_str());
    write!(
        text,
        "<tr><td>{line}</td><td>behind {low}</td><td><code>{group}</code></td><td><code>{resource}</code></td><td>"
    )?;
    push_namespace(text, &cover.namespace)?;
    text.push_str("</td><td>")?;
    push_name(text, &cover.name)?;
    text.push_str("</td></tr>\n")?;
    Ok(())
}

#[tactic(auto, unfolding(crate::specs::Hiding::namespace_text))]
fn push_namespace(text: &mut String, namespace: &Option<Text>) -> Result<(), OutOfMemory>
    ensures { OnOk result (string_bytes text.new ≡ string_bytes text.old
        ++ namespace_text namespace.now) }
{
    match namespace {
        Some(namespace) => write!(text, "<code>{}</code>", EscapedText(namespace.as_str()))?,
        None => text.push_str("any")?,
    }
    Ok(())
}

#[tactic(auto, unfolding(crate::specs::Hiding::name_text))]
fn push_name(text: &mut String, name: &CoverName) -> Result<(), OutOfMemory>
    ensures { OnOk result (string_bytes text.new ≡ string_bytes text.old ++ name_text name.now) }
{
    match name {
        CoverName::Exact(name) => write!(text, "<code>{}</code>", EscapedText(name.as_str()))?,
        CoverName::Prefix(front) => write!(
            text,
            "each that begins with <code>{}</code>",
            EscapedText(front.as_str())
        )?,
        CoverName::Any => text.push_str("any")?,
    }
    Ok(())
}
