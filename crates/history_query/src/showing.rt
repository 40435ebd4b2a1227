ghost use Rattle.std.specs.Prelude.{◌≡◌, ◌++◌, Contains, IfOk, IfSome, OnOk, Some, option_map, string_bytes};
ghost use Rattle.history_query.specs.Showing.{IsShowText, absent_text, present_text, sight_text};
ghost use Rattle.history_query.specs.Shown.{ShowsKnown};

use crate::json::append_json;
use crate::sight::{ObjectSight, sight_of};
use crate::telling::{append_piece, is_untold};
use base_types::{Bytes, ObjectKey, OutOfMemory};
use log_context::Context;
use object_past::Version;
use std::alloc::Global;

/// The object of a key as it may be at a place, with its revision, and whether it may be absent there.
pub fn show(
    alloc: Global,
    context: &Context,
    key: &ObjectKey,
    place: u64,
) -> Result<Bytes, OutOfMemory>
    ensures { IfOk result (IsShowText context.now key.now place) }
{
    let mut text = String::new(alloc);
    if is_untold(context, key, place) {
        text.push_str("unknown\n")?;
    } else {
        append_sight(alloc, &mut text, context, sight_of(context, key, place))?;
    }
    Ok(Bytes::from_vec(text.into_bytes()))
}

fn append_sight(
    alloc: Global,
    text: &mut String,
    context: &Context,
    sight: ObjectSight<'_>,
) -> Result<(), OutOfMemory>
    requires { ShowsKnown context.now.versions sight }
    ensures { OnOk result (string_bytes text.new ≡ string_bytes text.old
        ++ sight_text context.now.trees sight.entry) }
{
    match sight {
        ObjectSight::Clouded => append_piece(text, "clouded\n"),
        ObjectSight::Told { present, absent } => {
            append_present(alloc, text, context, present)?;
            append_absent(text, absent)
        }
    }
}

fn append_present(
    alloc: Global,
    text: &mut String,
    context: &Context,
    present: Option<&Version>,
) -> Result<(), OutOfMemory>
    requires { IfSome present (λ version. Contains context.now.versions version.now) }
    ensures { OnOk result (string_bytes text.new ≡ string_bytes text.old
        ++ present_text context.now.trees (option_map (λ version. version.now) present.entry)) }
{
    match present {
        Some(version) => append_version(alloc, text, context, version),
        None => Ok(()),
    }
}

fn append_version(
    alloc: Global,
    text: &mut String,
    context: &Context,
    version: &Version,
) -> Result<(), OutOfMemory>
    requires { Contains context.now.versions version.now }
    ensures { OnOk result (string_bytes text.new ≡ string_bytes text.old
        ++ present_text context.now.trees (Some version.now)) }
{
    // For the proof alone: the pool has the tree of each version.
    let _versions = context.versions();
    write!(text, "present {} ", version.revision.get())?;
    append_json(alloc, text, context.pool(), version.node)
}

fn append_absent(text: &mut String, absent: bool) -> Result<(), OutOfMemory>
    ensures { OnOk result (string_bytes text.new ≡ string_bytes text.old ++ absent_text absent) }
{
    if absent {
        return append_piece(text, "absent\n");
    }
    Ok(())
}
