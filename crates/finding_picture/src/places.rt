ghost use Rattle.std.specs.Prelude.{◌≡◌, ◌++◌, OnOk, map, option_map, string_bytes};
ghost use Rattle.finding_picture.specs.Places.{band_text, drawing_text, marks_text, places_text};

use crate::finding::Finding;
use crate::lasting::since;
use crate::limits::{MOST_MARKS, MOST_SEGMENTS};
use crate::marks::{places_axis, push_mark};
use crate::objects::key_on;
use crate::segments::{push_segments, versions_on};
use base_types::{ObjectKey, OutOfMemory, WriteLine};
use log_context::Context;
use markup::{Axis, first_of, push_rest};
use object_past::Version;
use std::alloc::Global;

/// What stands before how many writes are drawn.
pub const BEFORE_PLACES: &str = r#"<h2>Places</h2>
<p>An answer of the event could be right at a place of the band: a place is a revision, and what the cluster held
when it was the last one. A tick is a write that made a revision. A bar is the range in which a removal took place.
The boxes below are the versions of the event's object, each from its revision on. Place 18446744073709551615 stands
behind all revisions.</p>
<figure>
<svg role="img" viewBox="0 0 960 150" aria-labelledby="places-title places-desc">
<title id="places-title">The window of the event over the line of revisions</title>
<desc id="places-desc">"#;

/// The band and the axis, and what stands before the band's low end.
pub const BAND_AND_AXIS: &str = r#". The table of the writes has each.</desc>
<rect class="band" x="40" y="30" width="880" height="50"/>
<line class="axis" x1="40" y1="80" x2="920" y2="80"/>
<text x="40" y="22">"#;

/// What stands behind the marks.
pub const BEHIND_PLACES: &str = "</svg>\n</figure>\n";

/// Appends the drawing of the window, of the writes in it and of the versions of the event's object.
#[tactic(auto, unfolding(crate::specs::Places::places_text))]
pub fn push_places(
    alloc: Global,
    text: &mut String,
    context: &Context,
    finding: &Finding<'_>,
) -> Result<(), OutOfMemory>
    ensures { OnOk result (string_bytes text.new ≡ string_bytes text.old
        ++ places_text context.now finding.now) }
{
    let versions = context.versions();
    let axis = places_axis(versions, finding.low, finding.high);
    let key = key_on(context.log(), finding.line);
    let own = versions_on(alloc, &axis, versions, key)?;
    let drawn = since(finding.low, own.as_slice());
    push_drawing(text, context, &axis, finding, key, drawn)
}

#[tactic(auto, unfolding(crate::specs::Places::drawing_text))]
fn push_drawing(
    text: &mut String,
    context: &Context,
    axis: &Axis,
    finding: &Finding<'_>,
    key: Option<&ObjectKey>,
    drawn: &[&Version],
) -> Result<(), OutOfMemory>
    ensures { OnOk result (string_bytes text.new ≡ string_bytes text.old
        ++ drawing_text context.now.events axis.now finding.now
        (option_map (λ key. key.now) key.entry) (map (λ v. v.now) drawn.now)) }
{
    push_band(text, finding)?;
    push_marks(text, context, axis, finding.writes)?;
    push_segments(text, axis, key, drawn)?;
    text.push_str(BEHIND_PLACES)?;
    push_rest(
        text,
        MOST_MARKS,
        finding.writes.len(),
        "Writes that aren't drawn",
    )?;
    push_rest(
        text,
        MOST_SEGMENTS,
        drawn.len(),
        "Versions that aren't drawn",
    )
}

#[tactic(auto, unfolding(crate::specs::Places::band_text))]
fn push_band(text: &mut String, finding: &Finding<'_>) -> Result<(), OutOfMemory>
    ensures { OnOk result (string_bytes text.new ≡ string_bytes text.old ++ band_text finding.now) }
{
    let count = finding.writes.len();
    let low = finding.low;
    let high = finding.high;
    writeln!(
        text,
        "{BEFORE_PLACES}{count} writes, from place {low} to place {high}{BAND_AND_AXIS}{low}</text>\n\
        <text x=\"920\" y=\"22\" text-anchor=\"end\">{high}</text>"
    )?;
    Ok(())
}

fn push_marks(
    text: &mut String,
    context: &Context,
    axis: &Axis,
    writes: &[WriteLine],
) -> Result<(), OutOfMemory>
    ensures { OnOk result (string_bytes text.new ≡ string_bytes text.old
        ++ marks_text context.now.events axis.now writes.now) }
{
    for write in first_of(writes, MOST_MARKS) {
        push_mark(text, context, axis, write)?;
    }
    Ok(())
}
