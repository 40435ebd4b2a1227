ghost use Rattle.std.specs.Prelude.{◌≡◌, option_map, IsTrue, ◌↔◌, [], ◌∷◌};
ghost use Rattle.request_attrs.specs.Paths.{texts_of};
ghost use Rattle.request_attrs.specs.Requests.{in_group, in_named_group, api_path, without_watch, namespace_of};
ghost use Rattle.request_attrs.specs.Requests.{is_of_namespace, without_namespace, segment_at, resource_request};
ghost use Rattle.request_attrs.specs.Shown.{shown_path, shown_request};

// The group and the version of a path under `/api` or `/apis`, and the segments behind them.
#[derive(Drop)]
struct ApiPath<'a> {
    group: &'a str,
    version: &'a str,
    rest: &'a [&'a str],
}

/// The parts of a resource request.
#[derive(Drop)]
pub(crate) struct ResourceRequest<'a> {
    pub(crate) group: &'a str,
    pub(crate) version: &'a str,
    pub(crate) namespace: &'a str,
    pub(crate) resource: &'a str,
    pub(crate) name: &'a str,
    pub(crate) subresource: &'a str,
}

fn in_group<'a>(group: &'a str, segments: &'a [&'a str]) -> Option<ApiPath<'a>>
    ensures { option_map shown_path result ≡ in_group group.now (texts_of segments.now) }
{
    let (version, rest) = segments.split_first()?;
    if rest.is_empty() {
        return None;
    }
    Some(ApiPath {
        group,
        version,
        rest,
    })
}

fn api_path<'a>(segments: &'a [&'a str]) -> Option<ApiPath<'a>>
    ensures { option_map shown_path result ≡ api_path (texts_of segments.now) }
{
    let (root, rest) = segments.split_first()?;
    if *root == "api" {
        return in_group("", rest);
    }
    if *root != "apis" {
        return None;
    }
    let (group, rest) = rest.split_first()?;
    in_group(group, rest)
}

fn without_watch<'a>(segments: &'a [&'a str]) -> &'a [&'a str]
    ensures { texts_of result.now ≡ without_watch (texts_of segments.now) }
{
    match segments {
        [first, rest @ ..] if *first == "watch" && !rest.is_empty() => rest,
        _ => segments,
    }
}

fn namespace_of<'a>(segments: &[&'a str]) -> &'a str
    ensures { result.now ≡ namespace_of (texts_of segments.now) }
{
    match segments {
        [first, namespace, ..] if *first == "namespaces" => namespace,
        _ => "",
    }
}

// Whether the segment names a subresource of the namespace itself.
fn is_of_namespace(segment: &str) -> bool
    ensures { result ≡ is_of_namespace segment.now }
{
    segment == "status" || segment == "finalize"
}

fn without_namespace<'a>(segments: &'a [&'a str]) -> &'a [&'a str]
    ensures { texts_of result.now ≡ without_namespace (texts_of segments.now) }
{
    match segments {
        [first, _, rest @ ..] if *first == "namespaces" => match rest {
            [third, ..] if !is_of_namespace(third) => rest,
            _ => segments,
        },
        _ => segments,
    }
}

fn segment_at<'a>(at: usize, segments: &[&'a str]) -> &'a str
    ensures { result.now ≡ segment_at at (texts_of segments.now) }
{
    match segments.get(at) {
        Some(segment) => segment,
        None => "",
    }
}

/// The parts of a resource request with these segments; None for a non-resource request.
pub(crate) fn resource_request<'a>(segments: &'a [&'a str]) -> Option<ResourceRequest<'a>>
    ensures { option_map shown_request result ≡ resource_request (texts_of segments.now) }
{
    let path = api_path(segments)?;
    let rest = without_watch(path.rest);
    let words = without_namespace(rest);
    Some(ResourceRequest {
        group: path.group,
        version: path.version,
        namespace: namespace_of(rest),
        resource: segment_at(0, words),
        name: segment_at(1, words),
        subresource: segment_at(2, words),
    })
}
