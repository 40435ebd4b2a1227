ghost use Rattle.std.specs.Prelude.{◌≡◌, ◌++◌, OnOk, option_map, string_bytes};
ghost use Rattle.finding_picture.specs.Showing.{answer_text, item_text, listing_text, removed_text, showing_text};
ghost use Rattle.finding_picture.specs.Showing.{wanted_revision, wanted_uid, whole_words, words_text};

use base_types::{OutOfMemory, Revision, Text};
use markup::EscapedText;
use write_groups::{Item, Listing, LogEvent, Shown};

/// Appends what an event's answer shows, and what its request asks of the object before.
#[tactic(auto, unfolding(crate::specs::Showing::showing_text))]
pub fn push_showing(text: &mut String, event: Option<&LogEvent>) -> Result<(), OutOfMemory>
    ensures { OnOk result (string_bytes text.new ≡ string_bytes text.old ++ showing_text
        (option_map (λ event. event.now) event.entry)) }
{
    let Some(event) = event else {
        return Ok(());
    };
    push_wanted_revision(text, event.preconditions.revision)?;
    push_wanted_uid(text, &event.preconditions.uid)?;
    push_answer(text, &event.answer)
}

#[tactic(auto, unfolding(crate::specs::Showing::wanted_revision))]
fn push_wanted_revision(text: &mut String, wanted: Option<Revision>) -> Result<(), OutOfMemory>
    ensures { OnOk result (string_bytes text.new ≡ string_bytes text.old
        ++ wanted_revision wanted) }
{
    if let Some(revision) = wanted {
        let revision = revision.get();
        writeln!(text, "<dt>Precondition</dt><dd>revision {revision}</dd>")?;
    }
    Ok(())
}

#[tactic(auto, unfolding(crate::specs::Showing::wanted_uid))]
fn push_wanted_uid(text: &mut String, wanted: &Option<Text>) -> Result<(), OutOfMemory>
    ensures { OnOk result (string_bytes text.new ≡ string_bytes text.old ++ wanted_uid wanted.now) }
{
    if let Some(uid) = wanted {
        let uid = EscapedText(uid.as_str());
        writeln!(text, "<dt>Precondition</dt><dd>UID <code>{uid}</code></dd>")?;
    }
    Ok(())
}

fn push_answer(text: &mut String, answer: &Shown) -> Result<(), OutOfMemory>
    ensures { OnOk result (string_bytes text.new ≡ string_bytes text.old
        ++ answer_text answer.now) }
{
    match answer {
        Shown::Made { item, .. } => push_item(text, item),
        Shown::Removed { uid, .. } => push_removed(text, uid),
        Shown::Opaque { .. } => push_words(text, "a write, and not what it left"),
        Shown::Saw { item } => push_item(text, item),
        Shown::SawNone { .. } => push_words(text, "that its object was absent"),
        Shown::SawSome { .. } => push_words(text, "that its object was there"),
        Shown::SawOther { .. } => {
            push_words(text, "that its object didn't meet the preconditions")
        }
        Shown::Listed { listing } => push_listing(text, listing),
        Shown::Free => push_words(text, "nothing of any object"),
        Shown::Aside => push_words(text, "nothing: the answer isn't judged"),
    }
}

// What the program says of an answer that holds nothing.
fn push_words(text: &mut String, words: &str) -> Result<(), OutOfMemory>
    ensures { OnOk result (string_bytes text.new ≡ string_bytes text.old ++ words_text words.now) }
{
    writeln!(text, "<dt>Shows</dt><dd>{words}</dd>")?;
    Ok(())
}

#[tactic(auto, unfolding(crate::specs::Showing::item_text))]
fn push_item(text: &mut String, item: &Item) -> Result<(), OutOfMemory>
    ensures { OnOk result (string_bytes text.new ≡ string_bytes text.old ++ item_text item.now) }
{
    let revision = item.revision.get();
    let uid = EscapedText(item.uid.as_str());
    writeln!(
        text,
        "<dt>Shows</dt><dd>its object at revision {revision}, UID <code>{uid}</code></dd>"
    )?;
    Ok(())
}

#[tactic(auto, unfolding(crate::specs::Showing::removed_text))]
fn push_removed(text: &mut String, uid: &Text) -> Result<(), OutOfMemory>
    ensures { OnOk result (string_bytes text.new ≡ string_bytes text.old ++ removed_text uid.now) }
{
    let uid = EscapedText(uid.as_str());
    writeln!(
        text,
        "<dt>Shows</dt><dd>that it removed the object of UID <code>{uid}</code></dd>"
    )?;
    Ok(())
}

#[tactic(auto, unfolding(crate::specs::Showing::listing_text))]
fn push_listing(text: &mut String, listing: &Listing) -> Result<(), OutOfMemory>
    ensures { OnOk result (string_bytes text.new ≡ string_bytes text.old
        ++ listing_text listing.now) }
{
    let revision = listing.revision.get();
    let count = listing.items.len();
    let whole = whole_words(listing.whole);
    writeln!(
        text,
        "<dt>Shows</dt><dd>a list at revision {revision}, of {count} items{whole}</dd>"
    )?;
    Ok(())
}

fn whole_words(whole: bool) -> &'static str
    ensures { result.now ≡ whole_words whole }
{
    match whole {
        true => ", which are all",
        false => ", and maybe not all",
    }
}
