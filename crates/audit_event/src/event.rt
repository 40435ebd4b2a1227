use base_types::{Decision, Level, Listed, Moment, RequestAttrs, Shared, Stage, Text, User};
use packed_tree::Packed;

/// What an event records of an object that was sent or answered.
#[derive(Drop, PartialEq, Eq)]
pub enum Body {
    /// Not recorded, or null.
    Absent,
    Kept(Packed),
    /// Recorded, with a number that isn't whole or not in -2^63 to 2^64 - 1.
    Unread,
}

/// How a request was answered (Kubernetes API, `meta/v1`, Status). The texts are empty where the answer
/// has none.
#[derive(Drop, PartialEq, Eq)]
pub struct Status {
    /// The HTTP status, from 1 to 999; none where the request panicked.
    pub code: Option<u16>,
    /// As `NotFound` or `AlreadyExists`.
    pub reason: Text,
    /// Whether `status` is `Success`.
    pub success: bool,
    /// The uid in `details`.
    pub uid: Text,
    /// The name in `details`.
    pub name: Text,
    /// The kind in `details`, which for API servers is the resource's name.
    pub kind: Text,
}

/// An audit event: one stage of one request (Kubernetes API, `audit.k8s.io/v1`, Event).
#[derive(PartialEq, Eq)]
pub struct Event {
    /// The event's number in the log, or in the list that it is an item of.
    pub line: u64,
    pub level: Level,
    /// `auditID`, the same for all stages of a request. It isn't empty.
    pub audit_id: Text,
    pub stage: Stage,
    /// What `verb` and `requestURI` ask for.
    pub attrs: RequestAttrs,
    /// Who authenticated.
    pub user: User,
    /// Whom the request was made as, where that is someone else.
    pub impersonated: Option<User>,
    pub status: Status,
    /// `requestObject`
    pub request: Body,
    /// `responseObject`
    pub response: Body,
    /// `requestReceivedTimestamp`
    pub received: Moment,
    /// `stageTimestamp`, which isn't before the receipt.
    pub staged: Moment,
    /// The annotation `authorization.k8s.io/decision`, where it is `allow` or `forbid`.
    pub decision: Option<Decision>,
}

// Written out, so that a function which drops events makes one call for each.
impl Drop for Event {
    fn drop(self) {
        let Event {
            line: _,
            level: _,
            audit_id: _,
            stage: _,
            attrs,
            user: _,
            impersonated: _,
            status,
            request: _,
            response: _,
            received: _,
            staged: _,
            decision: _,
        } = self;
        drop(attrs);
        drop(status);
    }
}

impl Shared for Event {}

/// Events in order.
pub type Events = Listed<Event>;
