ghost use Rattle.std.specs.Prelude.{◌≡◌, count_by};
ghost use Rattle.log_picture.specs.Kinds.{kind_of, kind_words, is_of};

use write_groups::{LogEvent, Shown};

/// What an event's answer says of the cluster, without the objects.
#[derive(Clone, Copy, PartialEq, Eq)]
pub enum AnswerKind {
    Created,
    Changed,
    Removed,
    Unrecorded,
    Saw,
    NotFound,
    AlreadyExists,
    Conflict,
    Listed,
    Free,
    Aside,
}

/// All kinds.
pub const KINDS: [AnswerKind; 11] = [
    AnswerKind::Created,
    AnswerKind::Changed,
    AnswerKind::Removed,
    AnswerKind::Unrecorded,
    AnswerKind::Saw,
    AnswerKind::NotFound,
    AnswerKind::AlreadyExists,
    AnswerKind::Conflict,
    AnswerKind::Listed,
    AnswerKind::Free,
    AnswerKind::Aside,
];

/// The kind of an answer.
pub fn kind_of(answer: &Shown) -> AnswerKind
    ensures { result ≡ kind_of answer.now }
{
    match answer {
        Shown::Made { created: true, .. } => AnswerKind::Created,
        Shown::Made { created: false, .. } => AnswerKind::Changed,
        Shown::Removed { .. } => AnswerKind::Removed,
        Shown::Opaque { .. } => AnswerKind::Unrecorded,
        Shown::Saw { .. } => AnswerKind::Saw,
        Shown::SawNone { .. } => AnswerKind::NotFound,
        Shown::SawSome { .. } => AnswerKind::AlreadyExists,
        Shown::SawOther { .. } => AnswerKind::Conflict,
        Shown::Listed { .. } => AnswerKind::Listed,
        Shown::Free => AnswerKind::Free,
        Shown::Aside => AnswerKind::Aside,
    }
}

/// A kind in words.
pub fn kind_words(kind: AnswerKind) -> &'static str
    ensures { result.now ≡ kind_words kind }
{
    match kind {
        AnswerKind::Created => "write that created an object",
        AnswerKind::Changed => "write that changed an object",
        AnswerKind::Removed => "write that removed an object",
        AnswerKind::Unrecorded => "unrecorded write",
        AnswerKind::Saw => "read that shows an object",
        AnswerKind::NotFound => "404 NotFound",
        AnswerKind::AlreadyExists => "409 AlreadyExists",
        AnswerKind::Conflict => "409 Conflict",
        AnswerKind::Listed => "list",
        AnswerKind::Free => "says nothing of any object",
        AnswerKind::Aside => "not judged",
    }
}

/// Whether the event is of the kind.
pub fn is_of(event: &LogEvent, kind: AnswerKind) -> bool
    ensures { result ≡ is_of kind event.now }
{
    kind_of(&event.answer) == kind
}

/// How many events are of the kind.
pub fn count_of(log: &[LogEvent], kind: AnswerKind) -> usize
    ensures { result ≡ count_by (is_of kind) log.now }
{
    log.iter().filter(|event| is_of(event, kind)).count()
}
