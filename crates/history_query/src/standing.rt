ghost use Rattle.std.specs.Prelude.{◌≡◌, ◌++◌, ◌∷◌, [], codes, IfOk, OnOk, option_map, string_bytes};
ghost use Rattle.base_types.specs.Keys.{key_spelling};
ghost use Rattle.history_query.specs.Appending.{Appends};
ghost use Rattle.history_query.specs.States.{IsKeyText, IsStateOf, IsStateText, key_text, presence_text};
ghost use Rattle.history_query.specs.States.{presence_word};
ghost use Rattle.verdict_text.specs.Words.{ended, spaced};
ghost use Rattle.log_context.specs.Keyed.{AreKeys};

use crate::sight::{ObjectSight, sight_of};
use crate::telling::is_below_start;
use base_types::{Bytes, ObjectKey, OutOfMemory, key_text};
use log_context::Context;
use object_past::Version;
use std::alloc::Global;

/// Which objects there may be at a place, by key, with their revisions.
pub fn state(alloc: Global, context: &Context, place: u64) -> Result<Bytes, OutOfMemory>
    ensures { IfOk result (IsStateText context.now place) }
{
    let mut text = String::new(alloc);
    if is_below_start(context, place) {
        text.push_str("unknown\n")?;
    } else {
        let keys = context.keys(alloc)?;
        append_keys(alloc, &mut text, context, &keys, place)?;
    }
    Ok(Bytes::from_vec(text.into_bytes()))
}

fn append_keys(
    alloc: Global,
    text: &mut String,
    context: &Context,
    keys: &[ObjectKey],
    place: u64,
) -> Result<(), OutOfMemory>
    requires { AreKeys context.now.versions context.now.log keys.now }
    ensures { OnOk result (Appends (IsStateOf context.now place) (string_bytes text.old)
        (string_bytes text.new)) }
{
    for key in keys {
        append_key(alloc, text, context, key, place)?;
    }
    Ok(())
}

// What can be told of a key.
fn append_key(
    alloc: Global,
    text: &mut String,
    context: &Context,
    key: &ObjectKey,
    place: u64,
) -> Result<(), OutOfMemory>
    ensures { OnOk result (Appends (IsKeyText context.now place key.now) (string_bytes text.old)
        (string_bytes text.new)) }
{
    append_key_sight(alloc, text, key, sight_of(context, key, place))
}

fn append_key_sight(
    alloc: Global,
    text: &mut String,
    key: &ObjectKey,
    sight: ObjectSight<'_>,
) -> Result<(), OutOfMemory>
    ensures { OnOk result (string_bytes text.new ≡ string_bytes text.old
        ++ key_text key.now sight.entry) }
{
    match sight {
        ObjectSight::Clouded => append_clouded(alloc, text, key),
        ObjectSight::Told { present, absent } => append_presence(alloc, text, key, present, absent),
    }
}

fn append_clouded(alloc: Global, text: &mut String, key: &ObjectKey) -> Result<(), OutOfMemory>
    ensures { OnOk result (string_bytes text.new ≡ string_bytes text.old
        ++ ended (spaced (codes "clouded" ∷ key_spelling key.now ∷ []))) }
{
    let spelled = key_text(alloc, key)?;
    let wrote = writeln!(text, "clouded {}", spelled.as_str());
    drop(spelled);
    Ok(wrote?)
}

// Nothing where the object can only be absent.
fn append_presence(
    alloc: Global,
    text: &mut String,
    key: &ObjectKey,
    present: Option<&Version>,
    absent: bool,
) -> Result<(), OutOfMemory>
    ensures { OnOk result (string_bytes text.new ≡ string_bytes text.old ++ presence_text key.now
        (option_map (λ version. version.now) present.entry) absent) }
{
    let Some(version) = present else {
        return Ok(());
    };
    let word = presence_word(absent);
    let spelled = key_text(alloc, key)?;
    let revision = version.revision.get();
    let wrote = writeln!(text, "{word} {} {revision}", spelled.as_str());
    drop(spelled);
    Ok(wrote?)
}

fn presence_word(absent: bool) -> &'static str
    ensures { result.now ≡ presence_word absent }
{
    if absent { "maybe" } else { "present" }
}
