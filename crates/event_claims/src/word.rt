ghost use Rattle.std.specs.Prelude.{◌≡◌, ◌==◌, Bool, find};
ghost use Rattle.event_claims.specs.Words.{IsSaid};
ghost use Rattle.history_model.specs.Events.{Event, Made};
ghost use Rattle.history_model.specs.Histories.{History};
ghost use Rattle.history_model.specs.Words.{word, answer_word, removal_word, is_by};
ghost use Rattle.object_past.specs.Modelled.{maker_of};
ghost use Rattle.object_past.specs.Past.{HasPast};
ghost use Rattle.write_groups.specs.Modelled.{event_of, item_of};

use base_types::{Revision, same_key};
use object_past::{Maker, Past};
use write_groups::{Item, LogEvent, Shown};

/// What an event is in a placement.
#[derive(Clone, Copy)]
pub enum Word {
    /// It made this revision.
    Makes(u64),
    /// It is the removal at this position.
    Removes(u32),
    /// Its answer stands at a place of its window.
    At,
    /// It was answered with a revision of another key.
    Strays,
    Nothing,
}

// Whether the event of this number is the maker.
fn is_maker(maker: Maker, number: u32) -> bool
    ensures { result ≡ is_by number (maker_of maker) }
{
    match maker {
        Maker::Event(event) => event == number,
        Maker::Snapshot => false,
        Maker::Unknown => false,
    }
}

// What a write is, by the version of the revision that it was answered with.
fn write_word(past: &Past, start: Revision, number: u32, item: &Item) -> Word
    ensures { (h : History) (event : Event) (created : Bool) → h.start ≡ start → HasPast past.now h
        → IsSaid h (answer_word h number event (Made (item_of item.now) created)) result }
{
    let revision = item.revision.get();
    if revision <= start.get() {
        return Word::At;
    }
    let Some(version) = past.at(revision) else {
        return Word::At;
    };
    if !same_key(&version.key, &item.key) {
        return Word::Strays;
    }
    if !is_maker(version.maker, number) {
        return Word::At;
    }
    Word::Makes(revision)
}

// What a removal is: without a range it is an answer.
fn removal_word(past: &Past, number: u32) -> Word
    ensures { (h : History) → HasPast past.now h
        → IsSaid h (removal_word (find (λ removal. removal.range.event == number) h.removals))
        result }
{
    match past.removal_by(number) {
        Some(position) => Word::Removes(position),
        None => Word::At,
    }
}

/// What an event is in a placement.
pub fn word_of(past: &Past, start: Revision, number: u32, event: &LogEvent) -> Word
    ensures { (h : History) → h.start ≡ start → HasPast past.now h
        → IsSaid h (word h number (event_of event.now)) result }
{
    match &event.answer {
        Shown::Made { item, created: _ } => write_word(past, start, number, item),
        Shown::Removed { key: _, uid: _ } => removal_word(past, number),
        Shown::Opaque { cover: _ } => Word::Nothing,
        Shown::Saw { item: _ } => Word::At,
        Shown::SawNone { key: _ } => Word::At,
        Shown::SawSome { key: _ } => Word::At,
        Shown::SawOther { key: _ } => Word::At,
        Shown::Listed { listing: _ } => Word::At,
        Shown::Free => Word::Nothing,
        Shown::Aside => Word::Nothing,
    }
}
