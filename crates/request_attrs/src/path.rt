ghost use Rattle.std.specs.Prelude.{◌≡◌, IfOk};
ghost use Rattle.request_attrs.specs.Paths.{raw_path, raw_query, without_leading, without_trailing, segments_of};
ghost use Rattle.request_attrs.specs.Paths.{texts_of};

use base_types::OutOfMemory;
use std::alloc::Global;

/// The URI up to the first `?`, and what stands behind it.
pub(crate) fn split_at_question(uri: &str) -> (&str, &str)
    ensures path { result.0.now ≡ raw_path uri.now }
    ensures query { result.1.now ≡ raw_query uri.now }
{
    match uri.split_once('?') {
        Some(parts) => parts,
        None => (uri, ""),
    }
}

fn trim_front(path: &str) -> &str
    ensures { result.now ≡ without_leading path.now }
{
    let mut rest = path;
    while let Some(shorter) = rest.strip_prefix('/') {
        rest = shorter;
    }
    rest
}

fn trim_back(path: &str) -> &str
    ensures { result.now ≡ without_trailing path.now }
{
    let mut rest = path;
    while let Some(shorter) = rest.strip_suffix('/') {
        rest = shorter;
    }
    rest
}

/// The parts between the slashes of a path, its outer slashes aside.
pub(crate) fn segments(alloc: Global, path: &str) -> Result<Vec<&str>, OutOfMemory>
    ensures { IfOk result (λ segments. texts_of segments.items ≡ segments_of path.now) }
{
    let inner = trim_back(trim_front(path));
    if inner.is_empty() {
        return Ok(Vec::new(alloc));
    }
    Ok(inner.split('/').collect(alloc)?)
}
