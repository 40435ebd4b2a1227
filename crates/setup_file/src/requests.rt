ghost use Rattle.std.specs.Prelude.{◌≡◌, option_map};
ghost use Rattle.setup_file.specs.Requests.{tracked_of, subresource_named, has_query, is_apply, is_merge_patch};

use crate::setup::{Setup, Subresource, Tracked};
use base_types::{RequestAttrs, Text};
use packed_tree::PackedRef;

/// The tracked resource that a request is for.
pub fn tracked_of<'a>(setup: &'a Setup, attrs: &RequestAttrs) -> Option<&'a Tracked>
    ensures { option_map (λ tracked. tracked.now) result ≡ tracked_of setup.now attrs.now }
{
    if attrs.is_resource {
        setup.resources.find(&attrs.group, &attrs.resource)
    } else {
        None
    }
}

/// The resource's subresource of this name, where the setup has it.
pub fn subresource_named<'a>(tracked: &'a Tracked, name: &Text) -> Option<&'a Subresource>
    ensures { option_map (λ subresource. subresource.now) result
        ≡ subresource_named name.now tracked.now }
{
    tracked
        .subresources
        .iter()
        .find(|subresource| subresource.name == *name)
}

fn has_query(attrs: &RequestAttrs, name: &str) -> bool
    ensures { result ≡ has_query name.now attrs.now }
{
    attrs.query.iter().any(|pair| pair.name.as_str() == name)
}

// Whether a body is an apply configuration (Kubernetes "Server-Side Apply").
fn is_apply(attrs: &RequestAttrs, body: &PackedRef<'_>) -> bool
    ensures { result ≡ is_apply attrs.now body.now }
{
    body.text_at("apiVersion").is_some()
        && body.text_at("kind").is_some()
        && has_query(attrs, "fieldManager")
}

/// Whether the body of a patch is a merge patch (RFC 7386, now RFC 7396): an object that is no apply
/// configuration, where the resource's patches that are objects are merge patches.
pub fn is_merge_patch(tracked: &Tracked, attrs: &RequestAttrs, body: &PackedRef<'_>) -> bool
    ensures { result ≡ is_merge_patch tracked.now attrs.now body.now }
{
    body.as_members().is_some() && !is_apply(attrs, body) && tracked.merges
}
