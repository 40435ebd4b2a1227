ghost use Rattle.std.specs.Prelude.{◌≡◌, IfOk, OnOk, IfErr, IsTrue, ◌↔◌, option_map};
ghost use Rattle.request_attrs.specs.Attributes.{lists, name_of, named, attributes_with, attributes};
ghost use Rattle.request_attrs.specs.Paths.{path_of, raw_query, segments_of};
ghost use Rattle.request_attrs.specs.Refusals.{BeginsWithSlash, IsReadable, IsCause};
ghost use Rattle.request_attrs.specs.Requests.{resource_request};
ghost use Rattle.request_attrs.specs.Shown.{shown_request, shown_texts};

use crate::escapes::{are_escapes_whole, decoded};
use crate::fault::UriFault;
use crate::path::{segments, split_at_question};
use crate::query::{pairs, selected_name};
use crate::request::{ResourceRequest, resource_request};
use base_types::{OutOfMemory, Pair, Pairs, RequestAttrs, Text};
use std::alloc::Global;

fn lists(verb: &str) -> bool
    ensures { result ≡ lists verb.now }
{
    verb == "list" || verb == "watch"
}

// The name of a list or watch that has none in its path is that of its field selector.
fn name_of<'a>(verb: &str, name: &'a str, query: &'a [Pair]) -> &'a str
    ensures { result.now ≡ name_of verb.now name.now query.now }
{
    if !lists(verb) || !name.is_empty() {
        return name;
    }
    match selected_name(query) {
        Some(selected) => selected,
        None => name,
    }
}

// The parts of a resource request, on their own.
#[derive(Drop)]
struct ResourceTexts {
    group: Text,
    version: Text,
    namespace: Text,
    resource: Text,
    name: Text,
    subresource: Text,
}

// Where the resource of a request is.
#[derive(Drop)]
struct Place {
    group: Text,
    version: Text,
    namespace: Text,
}

fn read_place(alloc: Global, request: &ResourceRequest) -> Result<Place, OutOfMemory>
    ensures group { IfOk result (λ place. place.group ≡ request.now.group.now) }
    ensures version { IfOk result (λ place. place.version ≡ request.now.version.now) }
    ensures namespace { IfOk result (λ place. place.namespace ≡ request.now.namespace.now) }
{
    Ok(Place {
        group: Text::from_str(alloc, request.group)?,
        version: Text::from_str(alloc, request.version)?,
        namespace: Text::from_str(alloc, request.namespace)?,
    })
}

// The parts of a request, whose name is given.
fn copied_texts(
    alloc: Global,
    request: &ResourceRequest,
    name: &str,
) -> Result<ResourceTexts, OutOfMemory>
    ensures { IfOk result (λ texts. shown_texts texts ≡ record (shown_request request.now)
        { name = name.now }) }
{
    let resource = Text::from_str(alloc, request.resource)?;
    let name = Text::from_str(alloc, name)?;
    let subresource = Text::from_str(alloc, request.subresource)?;
    let place = read_place(alloc, request)?;
    Ok(ResourceTexts {
        group: place.group,
        version: place.version,
        namespace: place.namespace,
        resource,
        name,
        subresource,
    })
}

// The parts of a request for this path; None for a non-resource request.
fn resource_texts(
    alloc: Global,
    verb: &str,
    path: &str,
    query: &[Pair],
) -> Result<Option<ResourceTexts>, OutOfMemory>
    ensures { IfOk result (λ found. option_map shown_texts found
        ≡ option_map (named verb.now query.now) (resource_request (segments_of path.now))) }
{
    let segments = segments(alloc, path)?;
    let Some(request) = resource_request(segments.as_slice()) else {
        return Ok(None);
    };
    let name = name_of(verb, request.name, query);
    Ok(Some(copied_texts(alloc, &request, name)?))
}

fn resource_attrs(verb: Text, path: Text, request: ResourceTexts, query: Pairs) -> RequestAttrs
    ensures { result ≡ attributes_with verb path query (Some (shown_texts request)) }
{
    RequestAttrs {
        verb,
        path,
        is_resource: true,
        group: request.group,
        version: request.version,
        resource: request.resource,
        subresource: request.subresource,
        namespace: request.namespace,
        name: request.name,
        query,
    }
}

fn path_attrs(alloc: Global, verb: Text, path: Text, query: Pairs) -> RequestAttrs
    ensures { result ≡ attributes_with verb path query None }
{
    RequestAttrs {
        verb,
        path,
        is_resource: false,
        group: Text::new(alloc),
        version: Text::new(alloc),
        resource: Text::new(alloc),
        subresource: Text::new(alloc),
        namespace: Text::new(alloc),
        name: Text::new(alloc),
        query,
    }
}

fn attrs_with(
    alloc: Global,
    verb: Text,
    path: Text,
    request: Option<ResourceTexts>,
    query: Pairs,
) -> RequestAttrs
    ensures { result ≡ attributes_with verb path query (option_map shown_texts request) }
{
    match request {
        Some(request) => resource_attrs(verb, path, request, query),
        None => path_attrs(alloc, verb, path, query),
    }
}

fn begins_with_slash(uri: &str) -> bool
    ensures { IsTrue result ↔ BeginsWithSlash uri.now }
{
    uri.starts_with('/')
}

// The decoded path of a URI, and its query as it stands.
fn path_and_query(alloc: Global, uri: &str) -> Result<(Text, &str), UriFault>
    ensures path { IfOk result (λ parts. parts.0 ≡ path_of uri.now) }
    ensures query { IfOk result (λ parts. parts.1.now ≡ raw_query uri.now) }
    ensures readable { OnOk result (IsReadable uri.now) }
    ensures cause { IfErr result (IsCause uri.now) }
{
    if !begins_with_slash(uri) {
        return Err(UriFault::NoSlash);
    }
    let (raw_path, raw_query) = split_at_question(uri);
    if !are_escapes_whole(raw_path.as_bytes()) {
        return Err(UriFault::BadEscape);
    }
    Ok((decoded(alloc, raw_path)?, raw_query))
}

/// The attributes of a request, of its verb as an audit event records it and its URI.
///
/// The query is read as a form (URL Standard): bytes in it that aren't UTF-8 become U+FFFD, and a `%`
/// that begins no escape stays.
pub fn attrs_of(alloc: Global, verb: &Text, uri: &Text) -> Result<RequestAttrs, UriFault>
    ensures attributes { IfOk result (λ attrs. attrs ≡ attributes verb.now uri.now) }
    ensures readable { OnOk result (IsReadable uri.now) }
    ensures cause { IfErr result (IsCause uri.now) }
{
    let (path, raw_query) = path_and_query(alloc, uri.as_str())?;
    let verb = verb.clone()?;
    let query = pairs(alloc, raw_query)?;
    let request = resource_texts(alloc, verb.as_str(), path.as_str(), query.as_slice())?;
    Ok(attrs_with(alloc, verb, path, request, query))
}
