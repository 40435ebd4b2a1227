ghost use Rattle.std.specs.Prelude.{◌≡◌, ◌<◌, ◌==◌, Bool, find, length, option_map};
ghost use Rattle.history_model.specs.Events.{Event, Made};
ghost use Rattle.history_model.specs.Histories.{History, IsEvent};
ghost use Rattle.history_model.specs.Readable.{IsReadable};
ghost use Rattle.history_model.specs.Words.{word, answer_word, is_by, removal_word, write_word};
ghost use Rattle.object_past.specs.Modelled.{maker_of, version_of};
ghost use Rattle.object_past.specs.Past.{HasPast};
ghost use Rattle.serial_machine.specs.Words.{SaysWord, making};
ghost use Rattle.log_context.specs.Histories.{history_of};
ghost use Rattle.write_groups.specs.Modelled.{event_of, item_of};

use base_types::{Range, Revision, same_key};
use log_context::Context;
use object_past::{Maker, Past, Removal, Version, removal_at};
use write_groups::{Item, LogEvent, Shown};

/// What an event is in a placement.
#[derive(Clone, Copy)]
pub enum PlacementWord {
    /// It made this revision.
    Makes(u64),
    /// It removed its object at one of these places.
    Removes(Range),
    /// Its answer stands at a place of its window.
    At,
    /// It was answered with a revision of another key.
    Strays,
    Nothing,
}

// Whether the event of this number made the version.
fn is_made_by(maker: Maker, number: u32) -> bool
    ensures { result ≡ is_by number (maker_of maker) }
{
    match maker {
        Maker::Event(event) => event == number,
        Maker::Snapshot => false,
        Maker::Unknown => false,
    }
}

// What a write is at the version of the revision that it was answered with.
fn version_word(version: &Version, number: u32, item: &Item) -> PlacementWord
    ensures { (event : Event) (created : Bool)
        → SaysWord (write_word (making number event (item_of item.now) created)
        (Some (version_of version.now))) result }
{
    if !same_key(&version.key, &item.key) {
        return PlacementWord::Strays;
    }
    if !is_made_by(version.maker, number) {
        return PlacementWord::At;
    }
    PlacementWord::Makes(item.revision.get())
}

// What a write is that was answered with this object.
fn made_word(past: &Past, start: Revision, number: u32, item: &Item) -> PlacementWord
    ensures { (h : History) (event : Event) (created : Bool) → h.start ≡ start → HasPast past.now h
        → SaysWord (answer_word h number event (Made (item_of item.now) created)) result }
{
    let revision = item.revision.get();
    if revision <= start.get() {
        return PlacementWord::At;
    }
    match past.at(revision) {
        Some(version) => version_word(version, number, item),
        None => PlacementWord::At,
    }
}

/// The removal by the event of this number.
pub fn removal_by(past: &Past, number: u32) -> Option<&Removal>
    ensures { option_map (λ removal. removal.now) result
        ≡ find (λ removal. removal.range.event == number) past.now.removals }
{
    let position = past.removal_by(number)?;
    removal_at(past.removals(), position)
}

// What a removal is: without a range it is an answer.
fn removed_word(past: &Past, number: u32) -> PlacementWord
    ensures { (h : History) → HasPast past.now h
        → SaysWord (removal_word (find (λ removal. removal.range.event == number) h.removals))
        result }
{
    match removal_by(past, number) {
        Some(removal) => PlacementWord::Removes(removal.range),
        None => PlacementWord::At,
    }
}

// What an event of this number is.
fn word_of(past: &Past, start: Revision, number: u32, event: &LogEvent) -> PlacementWord
    ensures { (h : History) → h.start ≡ start → HasPast past.now h
        → SaysWord (word h number (event_of event.now)) result }
{
    match &event.answer {
        Shown::Made { item, created: _ } => made_word(past, start, number, item),
        Shown::Removed { key: _, uid: _ } => removed_word(past, number),
        Shown::Opaque { cover: _ } => PlacementWord::Nothing,
        Shown::Saw { item: _ } => PlacementWord::At,
        Shown::SawNone { key: _ } => PlacementWord::At,
        Shown::SawSome { key: _ } => PlacementWord::At,
        Shown::SawOther { key: _ } => PlacementWord::At,
        Shown::Listed { listing: _ } => PlacementWord::At,
        Shown::Free => PlacementWord::Nothing,
        Shown::Aside => PlacementWord::Nothing,
    }
}

/// How many events and checkpoints the log has.
pub fn event_count(context: &Context) -> u32
    ensures count { result ≡ length context.now.log }
    ensures readable { IsReadable (history_of context.now) }
{
    context.log().len() as u32
}

/// What the event of this number is in a placement.
pub fn word_at(context: &Context, number: u32) -> PlacementWord
    requires { number < length context.now.log }
    ensures { (event : Event) → IsEvent (history_of context.now) number event
        → SaysWord (word (history_of context.now) number event) result }
{
    let event = &context.log()[number as usize];
    word_of(context.past(), context.setup().start, number, event)
}
