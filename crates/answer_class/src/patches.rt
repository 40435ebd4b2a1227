ghost use Rattle.std.specs.Prelude.{◌≡◌};
ghost use Rattle.answer_class.specs.Bodies.{is_merge_body, is_merge};

use crate::bodies::value_of;
use audit_event::Event;
use base_types::RequestAttrs;
use packed_tree::PackedRef;
use setup_file::{Tracked, is_merge_patch};

fn is_merge_body(tracked: &Tracked, attrs: &RequestAttrs, body: Option<PackedRef<'_>>) -> bool
    ensures { result ≡ is_merge_body tracked.now attrs.now body.entry }
{
    match body {
        Some(body) => is_merge_patch(tracked, attrs, &body),
        None => false,
    }
}

/// Whether the body of a patch is a merge patch (RFC 7386, now RFC 7396).
pub fn is_merge(tracked: &Tracked, event: &Event) -> bool
    ensures { result ≡ is_merge tracked.now event.now }
{
    is_merge_body(tracked, &event.attrs, value_of(&event.request))
}
