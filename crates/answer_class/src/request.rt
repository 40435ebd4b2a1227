ghost use Rattle.std.specs.Prelude.{◌≡◌, option_map};
ghost use Rattle.answer_class.specs.Requests.{verb_of, is_write, is_read, is_completing, is_full, is_elsewhere};
ghost use Rattle.answer_class.specs.Requests.{effect_of, is_own, is_nothing, is_unknown, is_filled, has_filled};
ghost use Rattle.answer_class.specs.Requests.{first_value, code_within, succeeds, is_code, is_done, is_open};

use base_types::{Level, Pair, RequestAttrs, Stage, Text};
use setup_file::{Tracked, subresource_named};

/// A request verb of the Kubernetes API (Kubernetes "Authorization", "Request verbs").
#[derive(Clone, Copy)]
pub enum Verb {
    Create,
    Update,
    Patch,
    Delete,
    DeleteCollection,
    Get,
    /// `list`
    Listing,
    Other,
}

/// What a request does to the object at its path.
#[derive(Clone, Copy)]
pub enum Effect {
    /// It is for the object itself.
    Own,
    /// It is for a subresource, and reads or writes the object.
    Same,
    /// It is for a subresource, and leaves the object.
    Nothing,
    /// It is for a subresource of which nothing is known.
    Unknown,
}

pub fn verb_of(text: &str) -> Verb
    ensures { result ≡ verb_of text.now }
{
    match text {
        "create" => Verb::Create,
        "update" => Verb::Update,
        "patch" => Verb::Patch,
        "delete" => Verb::Delete,
        "deletecollection" => Verb::DeleteCollection,
        "get" => Verb::Get,
        "list" => Verb::Listing,
        _ => Verb::Other,
    }
}

pub fn is_write(verb: Verb) -> bool
    ensures { result ≡ is_write verb }
{
    match verb {
        Verb::Create | Verb::Update | Verb::Patch | Verb::Delete | Verb::DeleteCollection => true,
        Verb::Get | Verb::Listing | Verb::Other => false,
    }
}

pub fn is_read(verb: Verb) -> bool
    ensures { result ≡ is_read verb }
{
    matches!(verb, Verb::Get | Verb::Listing)
}

/// Whether an event of this stage ends its request.
pub fn is_completing(stage: Stage) -> bool
    ensures { result ≡ is_completing stage }
{
    matches!(stage, Stage::Complete | Stage::Panic)
}

pub fn is_full(level: Level) -> bool
    ensures { result ≡ is_full level }
{
    matches!(level, Level::RequestResponse)
}

/// Whether a request is for another version of the resource than the one that is judged.
pub fn is_elsewhere(tracked: &Tracked, attrs: &RequestAttrs) -> bool
    ensures { result ≡ is_elsewhere tracked.now attrs.now }
{
    attrs.version != tracked.version
}

pub fn effect_of(tracked: &Tracked, attrs: &RequestAttrs) -> Effect
    ensures { result ≡ effect_of tracked.now attrs.now }
{
    if attrs.subresource.is_empty() {
        return Effect::Own;
    }
    match subresource_named(tracked, &attrs.subresource) {
        Some(subresource) if subresource.same => Effect::Same,
        Some(_) => Effect::Nothing,
        None => Effect::Unknown,
    }
}

pub fn is_own(effect: Effect) -> bool
    ensures { result ≡ is_own effect }
{
    matches!(effect, Effect::Own)
}

pub fn is_nothing(effect: Effect) -> bool
    ensures { result ≡ is_nothing effect }
{
    matches!(effect, Effect::Nothing)
}

pub fn is_unknown(effect: Effect) -> bool
    ensures { result ≡ is_unknown effect }
{
    matches!(effect, Effect::Unknown)
}

/// Whether a member has this name and a value that isn't empty.
pub fn is_filled(pair: &Pair, name: &str) -> bool
    ensures { result ≡ is_filled name.now pair.now }
{
    pair.name.as_str() == name && !pair.value.is_empty()
}

/// Whether the query has a member of this name with a value that isn't empty.
pub fn has_filled(attrs: &RequestAttrs, name: &str) -> bool
    ensures { result ≡ has_filled name.now attrs.now }
{
    attrs.query.iter().any(|pair| is_filled(pair, name))
}

/// The first value of this name in the query.
pub fn first_value<'a>(attrs: &'a RequestAttrs, name: &str) -> Option<&'a Text>
    ensures { option_map (λ text. text.now) result ≡ first_value name.now attrs.now }
{
    let pair = attrs.query.iter().find(|pair| pair.name.as_str() == name)?;
    Some(&pair.value)
}

/// Whether there is a code and it lies between these two, both of them taken in.
pub fn code_within(low: u16, high: u16, code: Option<u16>) -> bool
    ensures { result ≡ code_within low high code }
{
    match code {
        Some(code) => low <= code && code <= high,
        None => false,
    }
}

pub fn succeeds(code: Option<u16>) -> bool
    ensures { result ≡ succeeds code }
{
    code_within(200, 299, code)
}

pub fn is_code(number: u16, code: Option<u16>) -> bool
    ensures { result ≡ is_code number code }
{
    code_within(number, number, code)
}

/// `200 OK`, `201 Created` or `202 Accepted`.
pub fn is_done(code: Option<u16>) -> bool
    ensures { result ≡ is_done code }
{
    code_within(200, 202, code)
}

/// Whether it can't be told if a write was made: there is no code, or it is an error of the server.
pub fn is_open(code: Option<u16>) -> bool
    ensures { result ≡ is_open code }
{
    match code {
        Some(code) => code >= 500,
        None => true,
    }
}
