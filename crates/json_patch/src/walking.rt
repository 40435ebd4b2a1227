ghost use Rattle.std.specs.Prelude.{◌≡◌, IfOk, option_map};
ghost use Rattle.base_types.specs.Pointers.{child_of, pointed};

use crate::draft::{Draft, DraftNode};
use base_types::OutOfMemory;
use base_types::json::Pointer;

/// The value that a pointer identifies within a draft (RFC 6901 section 4).
pub fn get<'a>(draft: &'a Draft, at: &Pointer) -> Result<Option<&'a Draft>, OutOfMemory>
    ensures { IfOk result (λ found. option_map (λ t. t.now) found ≡ pointed at.now draft.now) }
{
    let mut here = draft;
    for token in at.as_slice() {
        match here.child(token.as_str())? {
            Some(child) => here = child,
            None => return Ok(None),
        }
    }
    Ok(Some(here))
}

impl Draft {
    // The value that one token of a pointer refers to: an object's member, or an array's item.
    fn child(&self, token: &str) -> Result<Option<&Draft>, OutOfMemory>
        ensures { IfOk result (λ found. option_map (λ t. t.now) found
            ≡ child_of token.now self.now) }
    {
        match &self.node {
            DraftNode::Items(list) => list.item(token),
            DraftNode::Members(list) => Ok(list.get(token)),
            _ => Ok(None),
        }
    }
}
