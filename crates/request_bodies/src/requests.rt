ghost use Rattle.std.specs.Prelude.{◌≡◌, option_map, bytes_eq};
ghost use Rattle.setup_file.specs.Objects.{api_version_of};
ghost use Rattle.request_bodies.specs.Requests.{shape_of, write_of, is_created, is_another, is_of_another};

use base_types::{RequestAttrs, is_combined};
use packed_tree::PackedRef;
use path_shape::Shape;
use setup_file::{Tracked, subresource_named};

/// What the body of a request is (Kubernetes "Authorization", "Request verbs").
#[derive(Clone, Copy, PartialEq, Eq)]
pub enum Write {
    /// An object, of a create or an update.
    Put,
    Patch,
    /// The options of a delete.
    Delete,
    Other,
}

pub fn write_of(verb: &str) -> Write
    ensures { result ≡ write_of verb.now }
{
    match verb {
        "create" => Write::Put,
        "update" => Write::Put,
        "patch" => Write::Patch,
        "delete" => Write::Delete,
        _ => Write::Other,
    }
}

/// The shape of what a request writes: that of the resource, or that of the subresource it is for, where it is known.
pub fn shape_of<'a>(tracked: &'a Tracked, attrs: &RequestAttrs) -> Option<&'a Shape>
    ensures { option_map (λ shape. shape.now) result ≡ shape_of tracked.now attrs.now }
{
    if attrs.subresource.is_empty() {
        return Some(&tracked.shape);
    }
    let subresource = subresource_named(tracked, &attrs.subresource)?;
    Some(&subresource.shape)
}

/// `201 Created`
pub fn is_created(code: Option<u16>) -> bool
    ensures { result ≡ is_created code }
{
    match code {
        Some(code) => code == 201,
        None => false,
    }
}

// Whether a text is the `apiVersion` of a resource.
fn is_api_version(tracked: &Tracked, text: &str) -> bool
    ensures { result ≡ bytes_eq text.now (api_version_of tracked.now.group tracked.now.version) }
{
    if tracked.group.is_empty() {
        return text == tracked.version.as_str();
    }
    is_combined(text, tracked.group.as_str(), tracked.version.as_str())
}

fn is_of_another_version(tracked: &Tracked, text: Option<&str>) -> bool
    ensures { result ≡ is_another (api_version_of tracked.now.group tracked.now.version)
        (option_map (λ text. text.now) text.entry) }
{
    match text {
        Some(text) => !is_api_version(tracked, text),
        None => false,
    }
}

fn is_of_another_kind(tracked: &Tracked, text: Option<&str>) -> bool
    ensures { result ≡ is_another tracked.now.kind (option_map (λ text. text.now) text.entry) }
{
    match text {
        Some(text) => text != tracked.kind.as_str(),
        None => false,
    }
}

/// Whether a body names another version or kind than those of the resource.
pub fn is_of_another(tracked: &Tracked, body: &PackedRef<'_>) -> bool
    ensures { result ≡ is_of_another tracked.now body.now }
{
    is_of_another_version(tracked, body.text_at("apiVersion"))
        || is_of_another_kind(tracked, body.text_at("kind"))
}
