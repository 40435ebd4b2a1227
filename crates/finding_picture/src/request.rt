ghost use Rattle.std.specs.Prelude.{◌≡◌, ◌++◌, OnOk, Some, option_map, string_bytes};
ghost use Rattle.std.specs.List.{flat_map};
ghost use Rattle.finding_picture.specs.Requests.{answered_text, asked_text, decision_text, decision_word};
ghost use Rattle.finding_picture.specs.Requests.{entry_text, event_text, group_text, impersonated_text, pair_text};
ghost use Rattle.finding_picture.specs.Requests.{request_text, status_text, time_entry, user_text};

use crate::showing::push_showing;
use audit_event::{Event, Status};
use base_types::{Decision, Moment, OutOfMemory, Pair, Text, User};
use markup::{EscapedText, push_moment};
use write_groups::LogEvent;

/// What stands for the event of a checkpoint, before what it shows.
pub const CHECKPOINT: &str = "<h2>The event</h2>
<p>This is a checkpoint of the setup: no line of the log has it.</p>
<dl>
";

/// Appends what the event asked, what it was answered, and what the answer shows; that it is a checkpoint, where it is
/// no event of the log.
#[tactic(auto, unfolding(crate::specs::Requests::request_text))]
pub fn push_request(
    text: &mut String,
    event: Option<&Event>,
    logged: Option<&LogEvent>,
) -> Result<(), OutOfMemory>
    ensures { OnOk result (string_bytes text.new ≡ string_bytes text.old
        ++ request_text (option_map (λ event. event.now) event.entry)
        (option_map (λ event. event.now) logged.entry)) }
{
    push_event(text, event)?;
    push_showing(text, logged)?;
    text.push_str("</dl>\n")?;
    Ok(())
}

#[tactic(auto, unfolding(crate::specs::Requests::event_text, crate::specs::Texts::checkpoint))]
fn push_event(text: &mut String, event: Option<&Event>) -> Result<(), OutOfMemory>
    ensures { OnOk result (string_bytes text.new ≡ string_bytes text.old ++ event_text
        (option_map (λ event. event.now) event.entry)) }
{
    let Some(event) = event else {
        text.push_str(CHECKPOINT)?;
        return Ok(());
    };
    text.push_str("<h2>The event</h2>\n<dl>\n")?;
    push_asked(text, event)?;
    push_answered(text, event)
}

#[tactic(auto, unfolding(crate::specs::Requests::asked_text))]
fn push_asked(text: &mut String, event: &Event) -> Result<(), OutOfMemory>
    ensures { OnOk result (string_bytes text.new ≡ string_bytes text.old ++ asked_text event.now) }
{
    push_entry(text, "Verb", &event.attrs.verb)?;
    push_entry(text, "Path", &event.attrs.path)?;
    push_query(text, event.attrs.query.as_slice())?;
    push_user(text, "User", &event.user)?;
    push_impersonated(text, &event.impersonated)
}

#[tactic(auto, unfolding(crate::specs::Requests::answered_text))]
fn push_answered(text: &mut String, event: &Event) -> Result<(), OutOfMemory>
    ensures { OnOk result (string_bytes text.new ≡ string_bytes text.old
        ++ answered_text event.now) }
{
    push_time(text, "Received", event.received)?;
    push_time(text, "Staged", event.staged)?;
    push_status(text, &event.status)?;
    push_decision(text, event.decision)
}

// A name of the program's own, and a text of the input.
#[tactic(auto, unfolding(crate::specs::Requests::entry_text))]
fn push_entry(text: &mut String, name: &str, told: &Text) -> Result<(), OutOfMemory>
    ensures { OnOk result (string_bytes text.new ≡ string_bytes text.old
        ++ entry_text name.now told.now) }
{
    writeln!(
        text,
        "<dt>{name}</dt><dd>{}</dd>",
        EscapedText(told.as_str())
    )?;
    Ok(())
}

// A name of the program's own, and a moment.
#[tactic(auto, unfolding(crate::specs::Requests::time_entry))]
fn push_time(text: &mut String, name: &str, at: Moment) -> Result<(), OutOfMemory>
    ensures { OnOk result (string_bytes text.new ≡ string_bytes text.old
        ++ time_entry name.now at) }
{
    write!(text, "<dt>{name}</dt><dd>")?;
    push_moment(text, at)?;
    text.push_str("</dd>\n")?;
    Ok(())
}

fn push_query(text: &mut String, query: &[Pair]) -> Result<(), OutOfMemory>
    ensures { OnOk result (string_bytes text.new ≡ string_bytes text.old
        ++ flat_map pair_text query.now) }
{
    for pair in query {
        push_pair(text, pair)?;
    }
    Ok(())
}

#[tactic(auto, unfolding(crate::specs::Requests::pair_text))]
fn push_pair(text: &mut String, pair: &Pair) -> Result<(), OutOfMemory>
    ensures { OnOk result (string_bytes text.new ≡ string_bytes text.old ++ pair_text pair.now) }
{
    let name = EscapedText(pair.name.as_str());
    let value = EscapedText(pair.value.as_str());
    writeln!(
        text,
        "<dt>Query</dt><dd><code>{name}</code> is <code>{value}</code></dd>"
    )?;
    Ok(())
}

#[tactic(auto, unfolding(crate::specs::Requests::user_text))]
fn push_user(text: &mut String, name: &str, user: &User) -> Result<(), OutOfMemory>
    ensures { OnOk result (string_bytes text.new ≡ string_bytes text.old
        ++ user_text name.now user.now) }
{
    push_entry(text, name, &user.name)?;
    push_groups(text, user.groups.as_slice())
}

fn push_groups(text: &mut String, groups: &[Text]) -> Result<(), OutOfMemory>
    ensures { OnOk result (string_bytes text.new ≡ string_bytes text.old
        ++ flat_map group_text groups.now) }
{
    for group in groups {
        push_entry(text, "Group", group)?;
    }
    Ok(())
}

#[tactic(auto, unfolding(crate::specs::Requests::impersonated_text))]
fn push_impersonated(text: &mut String, user: &Option<User>) -> Result<(), OutOfMemory>
    ensures { OnOk result (string_bytes text.new ≡ string_bytes text.old
        ++ impersonated_text user.now) }
{
    match user {
        Some(user) => push_user(text, "Impersonated user", user),
        None => Ok(()),
    }
}

#[tactic(auto, unfolding(crate::specs::Requests::status_text))]
fn push_status(text: &mut String, status: &Status) -> Result<(), OutOfMemory>
    ensures { OnOk result (string_bytes text.new ≡ string_bytes text.old
        ++ status_text status.now status.now.code) }
{
    match status.code {
        Some(code) => {
            let reason = EscapedText(status.reason.as_str());
            writeln!(text, "<dt>Answer</dt><dd>{code} {reason}</dd>")?;
        }
        None => text.push_str("<dt>Answer</dt><dd>none: the request panicked</dd>\n")?,
    }
    Ok(())
}

#[tactic(auto, unfolding(crate::specs::Requests::decision_text))]
fn push_decision(text: &mut String, decision: Option<Decision>) -> Result<(), OutOfMemory>
    ensures { OnOk result (string_bytes text.new ≡ string_bytes text.old
        ++ decision_text decision) }
{
    let word = decision_word(decision);
    writeln!(text, "<dt>Decision</dt><dd>{word}</dd>")?;
    Ok(())
}

fn decision_word(decision: Option<Decision>) -> &'static str
    ensures { result.now ≡ decision_word decision }
{
    match decision {
        None => "not recorded",
        Some(Decision::Allow) => "allow",
        Some(Decision::Forbid) => "forbid",
    }
}
