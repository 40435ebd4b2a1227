use crate::foundation::{Listed, Text, Texts};

/// Who asks (Kubernetes "Auditing", `user` and `impersonatedUser` of an event).
#[derive(Drop, PartialEq, Eq)]
pub struct User {
    pub name: Text,
    pub groups: Texts,
}

/// How much of a request an audit event records (Kubernetes "Auditing", "Audit policy").
#[derive(Clone, Copy, PartialEq, Eq, PartialOrd, Ord)]
pub enum Level {
    Metadata,
    Request,
    RequestResponse,
}

/// The level that a policy gives a request. `NoLevel` is the policy's `None`: no event is written.
#[derive(Clone, Copy, PartialEq, Eq)]
pub enum PolicyLevel {
    NoLevel,
    Set(Level),
}

/// When in the life of a request an event was written (Kubernetes "Auditing", "stages").
#[derive(Clone, Copy, PartialEq, Eq, PartialOrd, Ord, Hash)]
pub enum Stage {
    /// `RequestReceived`
    Received,
    /// `ResponseStarted`
    Started,
    /// `ResponseComplete`
    Complete,
    /// `Panic`
    Panic,
}

/// A set of stages, one flag for each.
#[derive(Clone, Copy, PartialEq, Eq)]
pub struct StageSet {
    pub received: bool,
    pub started: bool,
    pub complete: bool,
    pub panic: bool,
}

/// What an authorizer decided (the annotation `authorization.k8s.io/decision`).
#[derive(Clone, Copy, Debug, PartialEq, Eq)]
pub enum Decision {
    Allow,
    Forbid,
}

/// Which decisions an authorizer could have given.
#[derive(Clone, Copy, PartialEq, Eq)]
pub struct Possible {
    pub allow: bool,
    pub forbid: bool,
}

/// One member of a query.
#[derive(Drop, PartialEq, Eq)]
pub struct Pair {
    pub name: Text,
    pub value: Text,
}

/// A query's members in order.
pub type Pairs = Listed<Pair>;

/// The attributes by which a request is classified, as the API server reads them of its verb and URI
/// (Kubernetes "Authorization", "Review your request attributes").
#[derive(Drop, PartialEq, Eq)]
pub struct RequestAttrs {
    /// The request verb, as `get`, `list` or `create`.
    pub verb: Text,
    /// The percent-decoded path of the URI.
    pub path: Text,
    /// Whether the request is for a resource of an API group; the fields from `group` to `name` are
    /// empty where it isn't.
    pub is_resource: bool,
    /// The API group, empty for the core group.
    pub group: Text,
    pub version: Text,
    pub resource: Text,
    pub subresource: Text,
    /// Empty for a cluster-wide object and for a request over all namespaces.
    pub namespace: Text,
    pub name: Text,
    pub query: Pairs,
}
