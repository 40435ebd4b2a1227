ghost use Rattle.std.specs.Prelude.{◌≡◌, IfOk};
ghost use Rattle.history_query.specs.Deciding.{IsCanText, equal_places, possible_word};

use crate::telling::is_below_start;
use base_types::{Bytes, OutOfMemory, Places, Possible, RequestAttrs, User};
use log_context::Context;
use std::alloc::Global;

/// Which decisions an authorizer could have given on a request whose four caches all stood at a place.
pub fn can(
    alloc: Global,
    context: &Context,
    place: u64,
    who: &User,
    attrs: &RequestAttrs,
) -> Result<Bytes, OutOfMemory>
    ensures { IfOk result (IsCanText context.now place who.now attrs.now) }
{
    let mut text = String::new(alloc);
    if !context.setup().authorize {
        text.push_str("unjudged\n")?;
    } else if is_below_start(context, place) {
        text.push_str("unknown\n")?;
    } else {
        let possible = context.timeline().decide(&equal_places(place), who, attrs);
        writeln!(text, "{}", possible_word(possible))?;
    }
    Ok(Bytes::from_vec(text.into_bytes()))
}

fn equal_places(place: u64) -> Places
    ensures { result ≡ equal_places place }
{
    Places {
        roles: place,
        cluster_roles: place,
        bindings: place,
        cluster_bindings: place,
    }
}

// Either, or the only decision that is possible.
fn possible_word(possible: Possible) -> &'static str
    ensures { result.now ≡ possible_word possible.allow possible.forbid }
{
    match (possible.allow, possible.forbid) {
        (true, true) => "either",
        (true, false) => "allow",
        (false, _) => "forbid",
    }
}
