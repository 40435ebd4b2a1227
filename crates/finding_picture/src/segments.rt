ghost use Rattle.std.specs.Prelude.{◌≡◌, ◌++◌, IfOk, OnOk, Some, filter, map, option_map, string_bytes};
ghost use Rattle.std.specs.List.{flat_map};
ghost use Rattle.finding_picture.specs.Segments.{is_on_axis, segment_text, segment_width, segments_text, versions_on};

use crate::limits::MOST_SEGMENTS;
use base_types::{ObjectKey, OutOfMemory};
use markup::{Axis, EscapedText, first_of};
use object_past::Version;
use std::alloc::Global;

/// The versions of an object that were there on the axis; none where there is no key.
pub fn versions_on<'a>(
    alloc: Global,
    axis: &Axis,
    versions: &'a [Version],
    key: Option<&ObjectKey>,
) -> Result<Vec<&'a Version>, OutOfMemory>
    ensures { IfOk result (λ found. map (λ v. v.now) found.items
        ≡ versions_on axis.now versions.now (option_map (λ key. key.now) key.entry)) }
{
    match key {
        Some(key) => own_versions(alloc, axis, versions, key),
        None => Ok(Vec::new(alloc)),
    }
}

fn own_versions<'a>(
    alloc: Global,
    axis: &Axis,
    versions: &'a [Version],
    key: &ObjectKey,
) -> Result<Vec<&'a Version>, OutOfMemory>
    ensures { IfOk result (λ found. map (λ v. v.now) found.items
        ≡ filter (is_on_axis axis.now key.now) versions.now) }
{
    let mut found = Vec::new(alloc);
    for version in versions {
        if is_on_axis(axis, key, version) {
            found.push(version)?;
        }
    }
    Ok(found)
}

// Whether a version is one of an object, and was there at some place of the axis.
fn is_on_axis(axis: &Axis, key: &ObjectKey, version: &Version) -> bool
    ensures { result ≡ is_on_axis axis.now key.now version.now }
{
    version.key == *key && version.revision.get() <= axis.high
}

/// Appends the first of these versions of an object as boxes from their revisions on; nothing where there is no key.
#[tactic(auto, unfolding(crate::specs::Segments::segments_text))]
pub fn push_segments(
    text: &mut String,
    axis: &Axis,
    key: Option<&ObjectKey>,
    versions: &[&Version],
) -> Result<(), OutOfMemory>
    ensures { OnOk result (string_bytes text.new ≡ string_bytes text.old
        ++ segments_text axis.now (option_map (λ key. key.now) key.entry)
        (map (λ v. v.now) versions.now)) }
{
    let Some(_) = key else {
        return Ok(());
    };
    text.push_str("<text x=\"40\" y=\"102\">versions of the event's object</text>\n")?;
    push_boxes(text, axis, first_of(versions, MOST_SEGMENTS))
}

fn push_boxes(text: &mut String, axis: &Axis, versions: &[&Version]) -> Result<(), OutOfMemory>
    ensures { OnOk result (string_bytes text.new ≡ string_bytes text.old
        ++ flat_map (segment_text axis.now) (map (λ v. v.now) versions.now)) }
{
    for version in versions {
        push_segment(text, axis, version)?;
    }
    Ok(())
}

fn segment_width(axis: &Axis, revision: u64) -> u64
    ensures { result ≡ segment_width axis.now revision }
{
    u64::from(axis.left) + u64::from(axis.width) - axis.position(revision)
}

#[tactic(auto, unfolding(crate::specs::Segments::segment_text))]
fn push_segment(text: &mut String, axis: &Axis, version: &Version) -> Result<(), OutOfMemory>
    ensures { OnOk result (string_bytes text.new ≡ string_bytes text.old
        ++ segment_text axis.now version.now) }
{
    let revision = version.revision.get();
    let x = axis.position(revision);
    let width = segment_width(axis, revision);
    let uid = EscapedText(version.uid.as_str());
    writeln!(
        text,
        "<rect class=\"segment\" x=\"{x}\" y=\"108\" width=\"{width}\" height=\"18\">\
        <title>from revision {revision}: uid {uid}</title></rect>"
    )?;
    Ok(())
}
