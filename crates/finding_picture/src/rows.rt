ghost use Rattle.std.specs.Prelude.{◌≡◌, ◌++◌, OnOk, Some, option_map, string_bytes, take};
ghost use Rattle.std.specs.List.{flat_map};
ghost use Rattle.finding_picture.specs.Limits.{most_writes};
ghost use Rattle.finding_picture.specs.Rows.{author_text, event_cells, row_text, rows_text};

use crate::limits::MOST_WRITES;
use crate::looking::event_on;
use audit_event::Event;
use base_types::{OutOfMemory, Text, WriteLine};
use log_context::Context;
use markup::{EscapedText, first_of, push_moment, push_rest};

/// Appends the table of the writes in the window.
#[tactic(auto, unfolding(crate::specs::Rows::rows_text))]
pub fn push_rows(
    text: &mut String,
    context: &Context,
    writes: &[WriteLine],
) -> Result<(), OutOfMemory>
    ensures { OnOk result (string_bytes text.new ≡ string_bytes text.old
        ++ rows_text context.now.events writes.now) }
{
    text.push_str(
        "<h2>Writes in the window</h2>\n<table>\n<tr><th scope=\"col\">Revision or range</th>\
        <th scope=\"col\">Line</th><th scope=\"col\">Object</th><th scope=\"col\">User</th>\
        <th scope=\"col\">Received</th><th scope=\"col\">Staged</th></tr>\n",
    )?;
    push_each(text, context, writes)?;
    text.push_str("</table>\n")?;
    push_rest(text, MOST_WRITES, writes.len(), "Writes that aren't listed")
}

fn push_each(text: &mut String, context: &Context, writes: &[WriteLine]) -> Result<(), OutOfMemory>
    ensures { OnOk result (string_bytes text.new ≡ string_bytes text.old ++ flat_map
        (row_text context.now.events) (take most_writes writes.now)) }
{
    for write in first_of(writes, MOST_WRITES) {
        push_row(text, context, write)?;
    }
    Ok(())
}

#[tactic(auto, unfolding(crate::specs::Rows::row_text))]
fn push_row(text: &mut String, context: &Context, write: &WriteLine) -> Result<(), OutOfMemory>
    ensures { OnOk result (string_bytes text.new ≡ string_bytes text.old
        ++ row_text context.now.events write.now) }
{
    match write {
        WriteLine::Made {
            revision,
            line,
            key,
        } => {
            write!(text, "<tr><td>made {revision} ")?;
            push_author(text, context, *line, key)
        }
        WriteLine::Removed {
            low,
            high,
            line,
            key,
        } => {
            write!(text, "<tr><td>removed from {low} to {high} ")?;
            push_author(text, context, *line, key)
        }
    }
}

// Line, object, user and times of a write.
#[tactic(auto, unfolding(crate::specs::Rows::author_text))]
fn push_author(
    text: &mut String,
    context: &Context,
    line: u64,
    key: &Text,
) -> Result<(), OutOfMemory>
    ensures { OnOk result (string_bytes text.new ≡ string_bytes text.old
        ++ author_text context.now.events line key.now) }
{
    write!(
        text,
        "</td><td>{line}</td><td><code>{}</code></td>",
        EscapedText(key.as_str())
    )?;
    push_cells(text, event_on(context, line))
}

// Who wrote, and when it was received and answered.
#[tactic(auto, unfolding(crate::specs::Rows::event_cells))]
fn push_cells(text: &mut String, event: Option<&Event>) -> Result<(), OutOfMemory>
    ensures { OnOk result (string_bytes text.new ≡ string_bytes text.old ++ event_cells
        (option_map (λ event. event.now) event.entry)) }
{
    let Some(event) = event else {
        text.push_str("<td>-</td><td>-</td><td>-</td></tr>\n")?;
        return Ok(());
    };
    write!(
        text,
        "<td>{}</td><td>",
        EscapedText(event.user.name.as_str())
    )?;
    push_moment(text, event.received)?;
    text.push_str("</td><td>")?;
    push_moment(text, event.staged)?;
    text.push_str("</td></tr>\n")?;
    Ok(())
}
