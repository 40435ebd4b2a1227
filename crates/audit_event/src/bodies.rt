ghost use Rattle.std.specs.Prelude.{◌≡◌, IfOk, option_map};
ghost use Rattle.borrowed_json.specs.View.{view};
ghost use Rattle.audit_event.specs.Bodies.{body_of, kept, is_kept, IsSoundBody};

use crate::event::Body;
use base_types::OutOfMemory;
use base_types::json::TreeFault;
use borrowed_json::JsonValue;
use packed_tree::{Packed, pack_borrowed};
use std::alloc::Global;

impl Body {
    /// The value of a body that was recorded.
    pub fn kept(&self) -> Option<&Packed>
        ensures { option_map (λ value. value.now) result ≡ kept self.now }
    {
        match self {
            Body::Kept(value) => Some(value),
            _ => None,
        }
    }

    pub(crate) fn is_kept(&self) -> bool
        ensures { result ≡ is_kept self.now }
    {
        matches!(self, Body::Kept(_))
    }
}

/// The body that a member records, which is there and not null.
pub(crate) fn read_body(alloc: Global, member: Option<&JsonValue<'_>>) -> Result<Body, OutOfMemory>
    ensures body { IfOk result (λ body. body ≡ body_of
        (option_map (λ value. view value.now) member.entry)) }
    ensures sound { IfOk result IsSoundBody }
{
    let Some(value) = member else {
        return Ok(Body::Absent);
    };
    match pack_borrowed(alloc, value) {
        Ok(packed) => Ok(Body::Kept(packed)),
        Err(TreeFault::Fraction) => Ok(Body::Unread),
        Err(TreeFault::OutOfMemory) => Err(OutOfMemory),
    }
}
