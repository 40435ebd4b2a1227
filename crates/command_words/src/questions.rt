ghost use Rattle.std.specs.Prelude.{◌≡◌, ◌≢◌, ◌∷◌, [], ℕ, None, IfOk, IfSome, IfNone, IsErrOf, OnErr};
ghost use Rattle.std.specs.Prelude.{map, string_bytes, codes};
ghost use Rattle.base_types.specs.Keys.{IsNamed};
ghost use Rattle.command_words.specs.Asking.{IsPlace, IsPlaceWord, IsQuestionRead, TakesMemory, groups_of};
ghost use Rattle.command_words.specs.Command.{IsAskRead, MayWantMemory};
ghost use Rattle.request_attrs.specs.Attributes.{attributes};
ghost use Rattle.request_attrs.specs.Refusals.{IsReadable};

use crate::words::{Command, are_names};
use base_types::json::{Pointer, PointerFault, read_pointer};
use base_types::{OutOfMemory, RequestAttrs, Text, Texts, User, read_key};
use history_query::Question;
use request_attrs::{UriFault, attrs_of};
use std::alloc::Global;
use verdict_text::read_number;

/// Reads the words of a question to a history, which stands behind the names of a setup and a log.
pub fn read_asked(alloc: Global, words: &[String]) -> Result<Option<Command<'_>>, OutOfMemory>
    ensures read { IfOk result (IsAskRead (map string_bytes words.now)) }
    ensures memory { OnErr result (MayWantMemory (map string_bytes words.now)) }
{
    match words {
        [verb, setup, log, rest @ ..] => read_named(alloc, verb, setup, log, rest),
        _ => Ok(None),
    }
}

fn read_named<'a>(
    alloc: Global,
    verb: &str,
    setup: &'a str,
    log: &'a str,
    rest: &[String],
) -> Result<Option<Command<'a>>, OutOfMemory>
    ensures read { IfOk result (IsAskRead (verb.now ∷ setup.entry.now ∷ log.entry.now
        ∷ map string_bytes rest.now)) }
    ensures memory { OnErr result (MayWantMemory (verb.now ∷ setup.entry.now ∷ log.entry.now
        ∷ map string_bytes rest.now)) }
{
    if !are_names(setup, log) {
        return Ok(None);
    }
    let Some(question) = read_question(alloc, verb, rest)? else {
        return Ok(None);
    };
    Ok(Some(Command::Ask {
        setup,
        log,
        question,
    }))
}

// Each question has a number of words of its own, but for `versions` and `state`.
fn read_question(
    alloc: Global,
    verb: &str,
    rest: &[String],
) -> Result<Option<Question>, OutOfMemory>
    ensures read { IfOk result (IsQuestionRead verb.now (map string_bytes rest.now)) }
    ensures memory { OnErr result (TakesMemory verb.now (map string_bytes rest.now)) }
{
    match rest {
        [word] => read_one(alloc, verb, word),
        [key, place] => read_show(alloc, verb, key, place),
        [key, pointer, place] => read_blame(alloc, verb, key, pointer, place),
        [place, user, groups, request, uri] => {
            read_can(alloc, verb, place, user, groups, request, uri)
        }
        _ => Ok(None),
    }
}

fn read_one(alloc: Global, verb: &str, word: &str) -> Result<Option<Question>, OutOfMemory>
    ensures read { IfOk result (IsQuestionRead verb.now (word.now ∷ [])) }
    ensures memory { OnErr result (TakesMemory verb.now (word.now ∷ [])) }
{
    if verb == "versions" {
        return Ok(read_key(alloc, word)?.map(|key| Question::Versions { key }));
    }
    if verb == "state" {
        return Ok(read_place(word).map(|place| Question::State { place }));
    }
    Ok(None)
}

fn read_show(
    alloc: Global,
    verb: &str,
    key: &str,
    place: &str,
) -> Result<Option<Question>, OutOfMemory>
    ensures read { IfOk result (IsQuestionRead verb.now (key.now ∷ place.now ∷ [])) }
    ensures memory { OnErr result (TakesMemory verb.now (key.now ∷ place.now ∷ [])) }
{
    if verb != "show" {
        return Ok(None);
    }
    let Some(place) = read_place(place) else {
        return Ok(None);
    };
    Ok(read_key(alloc, key)?.map(|key| Question::Show { key, place }))
}

fn read_blame(
    alloc: Global,
    verb: &str,
    key: &str,
    pointer: &str,
    place: &str,
) -> Result<Option<Question>, OutOfMemory>
    ensures read { IfOk result (IsQuestionRead verb.now (key.now ∷ pointer.now ∷ place.now ∷ [])) }
    ensures memory { OnErr result (TakesMemory verb.now (key.now ∷ pointer.now ∷ place.now ∷ [])) }
{
    if verb != "blame" {
        return Ok(None);
    }
    let Some(place) = read_place(place) else {
        return Ok(None);
    };
    let Some(key) = read_key(alloc, key)? else {
        return Ok(None);
    };
    match read_pointer(alloc, pointer) {
        Ok(pointer) => Ok(Some(Question::Blame {
            key,
            pointer,
            place,
        })),
        Err(PointerFault::Form) => Ok(None),
        Err(PointerFault::OutOfMemory) => Err(OutOfMemory),
    }
}

fn read_can(
    alloc: Global,
    verb: &str,
    place: &str,
    user: &str,
    groups: &str,
    request: &str,
    uri: &str,
) -> Result<Option<Question>, OutOfMemory>
    ensures read { IfOk result (IsQuestionRead verb.now
        (place.now ∷ user.now ∷ groups.now ∷ request.now ∷ uri.now ∷ [])) }
    ensures memory { OnErr result (TakesMemory verb.now
        (place.now ∷ user.now ∷ groups.now ∷ request.now ∷ uri.now ∷ [])) }
{
    if verb != "can" {
        return Ok(None);
    }
    let Some(place) = read_place(place) else {
        return Ok(None);
    };
    let who = read_user(alloc, user, groups)?;
    let Some(attrs) = read_attrs(alloc, request, uri)? else {
        return Ok(None);
    };
    Ok(Some(Question::Can { place, who, attrs }))
}

fn read_user(alloc: Global, name: &str, groups: &str) -> Result<User, OutOfMemory>
    ensures name { IfOk result (λ who. who.name ≡ name.now) }
    ensures groups { IfOk result (λ who. who.groups ≡ groups_of groups.now) }
{
    Ok(User {
        name: Text::from_str(alloc, name)?,
        groups: read_groups(alloc, groups)?,
    })
}

// The attributes of a request; None where its URI has none.
fn read_attrs(alloc: Global, request: &str, uri: &str) -> Result<Option<RequestAttrs>, OutOfMemory>
    ensures some { IfOk result (λ found. IfSome found (λ attrs. IsReadable uri.now
        × (attrs ≡ attributes request.now uri.now))) }
    ensures none { IfOk result (λ found. IfNone found (IsReadable uri.now → ⊥)) }
{
    let request = Text::from_str(alloc, request)?;
    let uri = Text::from_str(alloc, uri)?;
    match attrs_of(alloc, &request, &uri) {
        Ok(attrs) => Ok(Some(attrs)),
        Err(fault) => without_attrs(fault),
    }
}

// A URI without attributes asks nothing.
fn without_attrs(fault: UriFault) -> Result<Option<RequestAttrs>, OutOfMemory>
    ensures { IfOk result (λ found. (found ≡ None) × (fault ≢ UriFault.OutOfMemory)) }
{
    match fault {
        UriFault::NoSlash | UriFault::BadEscape | UriFault::NotText => Ok(None),
        UriFault::OutOfMemory => Err(OutOfMemory),
    }
}

// A place is a decimal number from 1.
fn read_place(word: &str) -> Option<u64>
    ensures some { IfSome result (IsPlaceWord word.now) }
    ensures place { IfSome result (λ place. IsPlace word.now) }
    ensures none { IfNone result ((place : ℕ) → IsPlaceWord word.now place → ⊥) }
{
    let place = read_number(word)?;
    if place == 0 {
        return None;
    }
    Some(place)
}

// The groups between commas, or none for `-`.
fn read_groups(alloc: Global, word: &str) -> Result<Texts, OutOfMemory>
    ensures { IfOk result (λ groups. groups ≡ groups_of word.now) }
{
    let mut groups = Texts::new(alloc);
    if word == "-" {
        return Ok(groups);
    }
    for group in word.split(',') {
        groups.push(Text::from_str(alloc, group)?)?;
    }
    Ok(groups)
}
