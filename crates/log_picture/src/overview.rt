ghost use Rattle.std.specs.Prelude.{◌≡◌, ◌++◌, OnOk, string_bytes};
ghost use Rattle.log_picture.specs.Overview.{first_receipt, first_text, greatest_revision, last_receipt, last_text};
ghost use Rattle.log_picture.specs.Overview.{overview_text, receipt, receipts_or_none, receipts_text};

use audit_event::Event;
use base_types::{OutOfMemory, Revision};
use markup::{moment_at, push_moment};
use object_past::Version;

/// What the page says of a log as a whole.
#[derive(Clone, Copy)]
pub struct Overview {
    /// How many events the log has.
    pub events: usize,
    /// How many checkpoints the setup has.
    pub checkpoints: usize,
    /// How many objects the setup's snapshot has.
    pub objects: usize,
    /// The earliest receipt of a request, in nanoseconds since 1970.
    pub first: u64,
    /// The latest receipt.
    pub last: u64,
    /// The last revision before the log.
    pub start: u64,
    /// The greatest revision of a version.
    pub greatest: u64,
}

/// What stands in front of the log's numbers.
pub const OVERVIEW_HEAD: &str = r#"<h1>Explained</h1>
<p>There is an order of all events in which each answer is right. This page shows the log as a whole.</p>
<dl>
"#;

/// When the request of an event was received, in nanoseconds since 1970: 0 before, and the greatest number from the
/// year 2554 on.
pub fn receipt(event: &Event) -> u64
    ensures { result ≡ receipt event.now }
{
    let received = event.received.0;
    if received < 0 {
        return 0;
    }
    received.unsigned_abs().min(18_446_744_073_709_551_615) as u64
}

/// The earliest receipt, or 0.
pub fn first_receipt(events: &[Event]) -> u64
    ensures { result ≡ first_receipt events.now }
{
    let mut first = last_receipt(events);
    for event in events {
        first = first.min(receipt(event));
    }
    first
}

/// The latest receipt, or 0.
pub fn last_receipt(events: &[Event]) -> u64
    ensures { result ≡ last_receipt events.now }
{
    let mut last = 0;
    for event in events {
        last = last.max(receipt(event));
    }
    last
}

/// The greatest revision of a version, but at least the start.
pub fn greatest_revision(start: Revision, versions: &[Version]) -> u64
    ensures { result ≡ greatest_revision start versions.now }
{
    let mut greatest = start.get();
    for version in versions {
        greatest = greatest.max(version.revision.get());
    }
    greatest
}

/// Appends the verdict and the log's numbers.
#[tactic(auto, unfolding(crate::specs::Overview::overview_text))]
pub fn append_overview(text: &mut String, overview: Overview) -> Result<(), OutOfMemory>
    ensures { OnOk result (string_bytes text.new ≡ string_bytes text.old
        ++ overview_text overview) }
{
    append_first(text, overview)?;
    append_receipts_or_none(text, overview)?;
    append_last(text, overview)
}

#[tactic(auto, unfolding(crate::specs::Overview::receipts_or_none))]
fn append_receipts_or_none(text: &mut String, overview: Overview) -> Result<(), OutOfMemory>
    ensures { OnOk result (string_bytes text.new ≡ string_bytes text.old
        ++ receipts_or_none overview) }
{
    if overview.events == 0 {
        text.push_str("none</dd>\n<dt>Last receipt</dt><dd>none")?;
    } else {
        append_receipts(text, overview)?;
    }
    Ok(())
}

#[tactic(auto, unfolding(crate::specs::Overview::receipts_text))]
fn append_receipts(text: &mut String, overview: Overview) -> Result<(), OutOfMemory>
    ensures { OnOk result (string_bytes text.new ≡ string_bytes text.old
        ++ receipts_text overview) }
{
    push_moment(text, moment_at(overview.first))?;
    text.push_str("</dd>\n<dt>Last receipt</dt><dd>")?;
    push_moment(text, moment_at(overview.last))
}

#[tactic(auto, unfolding(crate::specs::Overview::first_text, crate::specs::Texts::overview_head))]
fn append_first(text: &mut String, overview: Overview) -> Result<(), OutOfMemory>
    ensures { OnOk result (string_bytes text.new ≡ string_bytes text.old ++ first_text overview) }
{
    let Overview {
        events,
        checkpoints,
        ..
    } = overview;
    write!(
        text,
        "{OVERVIEW_HEAD}<dt>Events</dt><dd>{events}</dd>\n<dt>Checkpoints</dt><dd>{checkpoints}</dd>\n\
        <dt>First receipt</dt><dd>"
    )?;
    Ok(())
}

#[tactic(auto, unfolding(crate::specs::Overview::last_text))]
fn append_last(text: &mut String, overview: Overview) -> Result<(), OutOfMemory>
    ensures { OnOk result (string_bytes text.new ≡ string_bytes text.old ++ last_text overview) }
{
    let Overview {
        objects,
        start,
        greatest,
        ..
    } = overview;
    write!(
        text,
        "</dd>\n<dt>Revision at the start</dt><dd>{start}</dd>\n\
        <dt>Objects at the start</dt><dd>{objects}</dd>\n\
        <dt>Greatest revision</dt><dd>{greatest}</dd>\n</dl>\n"
    )?;
    Ok(())
}
