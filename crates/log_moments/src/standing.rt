ghost use Rattle.std.specs.Prelude.{◌≡◌, Bool};
ghost use Rattle.history_model.specs.Events.{Event, Made};
ghost use Rattle.history_model.specs.Histories.{History};
ghost use Rattle.history_model.specs.Words.{answer_word, is_by, word};
ghost use Rattle.log_moments.specs.Views.{IsRevisionStanding};
ghost use Rattle.object_past.specs.Modelled.{maker_of};
ghost use Rattle.object_past.specs.Past.{HasPast};
ghost use Rattle.write_groups.specs.Modelled.{event_of, item_of};

use base_types::{Revision, same_key};
use object_past::{Maker, Past};
use write_groups::{Item, Listing, LogEvent, Shown};

/// What gives an event its place in the order of revisions.
#[derive(Clone, Copy)]
pub enum RevisionStanding<'a> {
    /// It made this revision.
    Writes(u64),
    /// It shows the object of one revision.
    Shows(&'a Item),
    /// It shows all objects of a scope at one revision.
    Lists(&'a Listing),
    /// Nothing does.
    Nowhere,
}

// Whether the event of this number is the maker.
fn is_maker(maker: Maker, number: usize) -> bool
    ensures { result ≡ is_by number (maker_of maker) }
{
    match maker {
        Maker::Event(event) => event as usize == number,
        Maker::Snapshot => false,
        Maker::Unknown => false,
    }
}

// A write makes the version of the revision that it was answered with, or finds it there; or the revision is of another
// object.
fn write_standing<'a>(
    past: &Past,
    start: Revision,
    number: usize,
    item: &'a Item,
) -> RevisionStanding<'a>
    ensures { (h : History) (event : Event) (created : Bool) → h.start ≡ start → HasPast past.now h
        → IsRevisionStanding h event (Made (item_of item.now) created) (answer_word h number event
        (Made (item_of item.now) created)) result }
{
    let revision = item.revision.get();
    if revision <= start.get() {
        return RevisionStanding::Shows(item);
    }
    let Some(version) = past.at(revision) else {
        return RevisionStanding::Shows(item);
    };
    if !same_key(&version.key, &item.key) {
        return RevisionStanding::Nowhere;
    }
    if !is_maker(version.maker, number) {
        return RevisionStanding::Shows(item);
    }
    RevisionStanding::Writes(revision)
}

/// What gives the event of this number its place in the order of revisions.
pub fn standing_of<'a>(
    past: &Past,
    start: Revision,
    number: usize,
    event: &'a LogEvent,
) -> RevisionStanding<'a>
    ensures { (h : History) → h.start ≡ start → HasPast past.now h
        → IsRevisionStanding h (event_of event.now) (event_of event.now).answer
        (word h number (event_of event.now)) result }
{
    match &event.answer {
        Shown::Made { item, created: _ } => write_standing(past, start, number, item),
        Shown::Removed { key: _, uid: _ } => RevisionStanding::Nowhere,
        Shown::Opaque { cover: _ } => RevisionStanding::Nowhere,
        Shown::Saw { item } => RevisionStanding::Shows(item),
        Shown::SawNone { key: _ } => RevisionStanding::Nowhere,
        Shown::SawSome { key: _ } => RevisionStanding::Nowhere,
        Shown::SawOther { key: _ } => RevisionStanding::Nowhere,
        Shown::Listed { listing } => RevisionStanding::Lists(listing),
        Shown::Free => RevisionStanding::Nowhere,
        Shown::Aside => RevisionStanding::Nowhere,
    }
}
