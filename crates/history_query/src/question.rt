ghost use Rattle.std.specs.Prelude.{IfOk};
ghost use Rattle.history_query.specs.Questions.{IsHistoryText};

use crate::blaming::blame;
use crate::deciding::can;
use crate::listing::versions;
use crate::showing::show;
use crate::standing::state;
use base_types::json::Pointer;
use base_types::{Bytes, ObjectKey, OutOfMemory, RequestAttrs, User};
use log_context::Context;
use std::alloc::Global;

/// What is asked of a history. A place is a number from 1 to 18446744073709551615.
#[derive(Drop)]
pub enum Question {
    /// The object as it may be at a place.
    Show {
        key: ObjectKey,
        place: u64,
    },
    /// All its versions.
    Versions {
        key: ObjectKey,
    },
    /// Which objects there may be at a place.
    State {
        place: u64,
    },
    /// Who wrote the value that a pointer identifies in it.
    Blame {
        key: ObjectKey,
        pointer: Pointer,
        place: u64,
    },
    /// Whether a user could do this by RBAC.
    Can {
        place: u64,
        who: User,
        attrs: RequestAttrs,
    },
}

/// The text that answers the question.
pub fn answer(alloc: Global, context: &Context, question: &Question) -> Result<Bytes, OutOfMemory>
    ensures { IfOk result (IsHistoryText context.now question.now) }
{
    match question {
        Question::Show { key, place } => show(alloc, context, key, *place),
        Question::Versions { key } => versions(alloc, context, key),
        Question::State { place } => state(alloc, context, *place),
        Question::Blame {
            key,
            pointer,
            place,
        } => blame(alloc, context, key, pointer, *place),
        Question::Can { place, who, attrs } => can(alloc, context, *place, who, attrs),
    }
}
