ghost use Rattle.std.specs.Prelude.{◌≡◌, bytes_eq};
ghost use Rattle.base_types.specs.Matching.{has_text, path_matches, combined};

use crate::foundation::{Text, Texts};

/// Whether the text is one of the list.
pub fn has_text(texts: &Texts, text: &Text) -> bool
    ensures { result ≡ has_text texts.now text.now }
{
    texts.as_slice().contains(text)
}

/// Whether an entry of `nonResourceURLs` takes a path (Kubernetes "Using RBAC Authorization", "Referring
/// to resources", and "Auditing"): it is the path, or the front of it and one `*`.
pub fn path_matches(entry: &Text, path: &Text) -> bool
    ensures { result ≡ path_matches entry.now path.now }
{
    match entry.as_str().strip_suffix('*') {
        Some(front) => path.as_str().starts_with(front),
        None => entry == path,
    }
}

/// Whether the text is `RESOURCE/SUBRESOURCE`.
pub fn is_combined(text: &str, resource: &str, subresource: &str) -> bool
    ensures { result ≡ bytes_eq text.now (combined resource.now subresource.now) }
{
    let Some(rest) = text.strip_prefix(resource) else {
        return false;
    };
    match rest.strip_prefix('/') {
        Some(behind) => behind == subresource,
        None => false,
    }
}
