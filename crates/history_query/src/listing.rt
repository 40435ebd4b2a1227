ghost use Rattle.std.specs.Prelude.{◌≡◌, ◌++◌, IfOk, OnOk, Some, string_bytes};
ghost use Rattle.history_query.specs.Versions.{IsVersionsText, version_lines, removal_text};
ghost use Rattle.history_query.specs.Versions.{version_text, versions_text};

use crate::sight::removal_behind;
use crate::telling::{append_piece, append_who, is_tracked, line_at};
use base_types::{Bytes, ObjectKey, OutOfMemory, escape};
use log_context::Context;
use object_past::{Removal, Version};
use std::alloc::Global;
use write_groups::LogEvent;

/// All versions of a key by revision, each with its uid and who wrote it, and behind the last one of each object that
/// was removed the range of its removal.
pub fn versions(alloc: Global, context: &Context, key: &ObjectKey) -> Result<Bytes, OutOfMemory>
    ensures { IfOk result (IsVersionsText context.now key.now) }
{
    let mut text = String::new(alloc);
    if is_tracked(context.setup(), key) {
        append_versions(alloc, &mut text, context, key)?;
    } else {
        text.push_str("unknown\n")?;
    }
    Ok(Bytes::from_vec(text.into_bytes()))
}

fn append_versions(
    alloc: Global,
    text: &mut String,
    context: &Context,
    key: &ObjectKey,
) -> Result<(), OutOfMemory>
    ensures { OnOk result (string_bytes text.new ≡ string_bytes text.old
        ++ versions_text context.now key.now) }
{
    for version in context.versions() {
        if version.key == *key {
            append_lines(alloc, text, context, version)?;
        }
    }
    Ok(())
}

// A version, and behind it the removal of the object whose last version it is.
fn append_lines(
    alloc: Global,
    text: &mut String,
    context: &Context,
    version: &Version,
) -> Result<(), OutOfMemory>
    ensures { OnOk result (string_bytes text.new ≡ string_bytes text.old
        ++ version_lines context.now version.now) }
{
    let log = context.log();
    append_version(alloc, text, log, version)?;
    match removal_behind(context.past(), version) {
        Some(removal) => append_removal(text, log, removal),
        None => Ok(()),
    }
}

fn append_version(
    alloc: Global,
    text: &mut String,
    log: &[LogEvent],
    version: &Version,
) -> Result<(), OutOfMemory>
    ensures { OnOk result (string_bytes text.new ≡ string_bytes text.old
        ++ version_text log.now version.now) }
{
    let uid = escape(alloc, &version.uid)?;
    let revision = version.revision.get();
    let wrote = write!(text, "{revision} {} ", uid.as_str());
    drop(uid);
    wrote?;
    append_who(text, log, version.maker)?;
    append_piece(text, "\n")
}

fn append_removal(text: &mut String, log: &[LogEvent], removal: &Removal) -> Result<(), OutOfMemory>
    ensures { OnOk result (string_bytes text.new ≡ string_bytes text.old
        ++ removal_text log.now (Some removal.now)) }
{
    let range = removal.range;
    let line = line_at(log, range.event);
    Ok(writeln!(text, "removed {} {} {line}", range.low, range.high)?)
}
