ghost use Rattle.std.specs.Prelude.{◌≡◌, option_map};
ghost use Rattle.audit_event.specs.Members.{is_text};
ghost use Rattle.log_context.specs.Readings.{is_list, is_read, takes_any, wants_exactly, reading_at};
ghost use Rattle.log_context.specs.Readings.{reading_from, reading_of};

use answer_class::{first_value, has_filled};
use base_types::{RequestAttrs, Revision, Text, revision_of};
use write_groups::Reading;

fn is_list(attrs: &RequestAttrs) -> bool
    ensures { result ≡ is_list attrs.now }
{
    attrs.verb.as_str() == "list"
}

fn is_read(attrs: &RequestAttrs) -> bool
    ensures { result ≡ is_read attrs.now }
{
    attrs.verb.as_str() == "get" || is_list(attrs)
}

fn is_text(found: Option<&Text>, text: &str) -> bool
    ensures { result ≡ is_text text.now (option_map (λ text. text.now) found.entry) }
{
    match found {
        Some(found) => found.as_str() == text,
        None => false,
    }
}

fn takes_any(attrs: &RequestAttrs) -> bool
    ensures { result ≡ takes_any attrs.now }
{
    is_text(first_value(attrs, "resourceVersion"), "0")
        || (is_list(attrs) && has_filled(attrs, "continue"))
}

fn wants_exactly(attrs: &RequestAttrs) -> bool
    ensures { result ≡ wants_exactly attrs.now }
{
    is_list(attrs) && is_text(first_value(attrs, "resourceVersionMatch"), "Exact")
}

fn reading_at(attrs: &RequestAttrs, revision: Revision) -> Reading
    ensures { result ≡ reading_at attrs.now revision }
{
    if wants_exactly(attrs) {
        Reading::Exactly(revision)
    } else {
        Reading::NotOlderThan(revision)
    }
}

fn reading_from(attrs: &RequestAttrs, asked: Option<&Text>) -> Reading
    ensures { result ≡ reading_from attrs.now (option_map (λ text. text.now) asked.entry) }
{
    let Some(text) = asked else {
        return Reading::MostRecent;
    };
    match revision_of(text.as_str()) {
        Some(revision) => reading_at(attrs, revision),
        None => Reading::MostRecent,
    }
}

/// Where in the history a request lets its answer be, by its verb and its query. Of members that come twice the first
/// counts.
pub fn reading_of(attrs: &RequestAttrs) -> Reading
    ensures { result ≡ reading_of attrs.now }
{
    if !is_read(attrs) {
        return Reading::MostRecent;
    }
    if takes_any(attrs) {
        return Reading::AnyVersion;
    }
    reading_from(attrs, first_value(attrs, "resourceVersion"))
}
