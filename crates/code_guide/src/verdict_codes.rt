ghost use Rattle.std.specs.Prelude.{◌≡◌, option_map};
ghost use Rattle.code_guide.specs.Texts.{text_in};
ghost use Rattle.code_guide.specs.VerdictGuides.{verdict_guides};

use crate::guide::{Guide, text_in};

/// `U1`
pub const U1: &str = "U1: the event is recorded at another level than the audit policy says.

How it comes about: The setup's policy isn't the server's, or was changed while the log was
written.

Look at: `level` on that line, and the first rule of the policy that fits the request.

What to do: Put the policy that was in force into the setup. If it changed in between, judge
the parts before and behind it by setups of their own. If it didn't, the event was edited.
";

/// `U2`
pub const U2: &str = "U2: the event is recorded at a stage that the policy omits.

How it comes about: The setup's policy isn't the server's, or was changed while the log was
written.

Look at: `stage` on that line, and `omitStages` of the policy and of its rule.

What to do: As for `U1`.
";

/// `U3`
pub const U3: &str =
    "U3: the event was answered with a revision that can't have been made in its time: it belongs
to another object, or lies before an earlier answer or behind a later one.

How it comes about: Several servers wrote the log and their clocks differ by more than
`slackNanos`; or the logs of two clusters were put together.

Look at: the revision and the times of this line, and the lines with the revisions next to
it.

What to do: Set `slackNanos` to the greatest difference of the servers' clocks. Judge each
cluster by itself. Else a revision or a time was changed.
";

/// `U4`
pub const U4: &str = "U4: the event created an object that was there.

How it comes about: The object had been removed without a request that the log has: by a
lost event, by the end of its namespace, or as a pod that several requests deleted at once.

Look at: what `versions` prints for the object, and what else happened in its namespace.

What to do: Don't track namespaces that are deleted within the log, nor pods that are
deleted at once. Else a delete isn't in the log.
";

/// `U5`
pub const U5: &str = "U5: the event created an object with a uid that was there before.

How it comes about: A backup was put back into the store. A server gives each new object a
uid of its own.

Look at: all lines with this uid.

What to do: Begin a new log, with a new setup, behind a backup that was put back. Else a uid
was changed.
";

/// `U6`
pub const U6: &str = "U6: the event wrote an object that wasn't there, or that had another uid.

How it comes about: The snapshot lacks the object, or its create was lost with the server's
last events.

Look at: what `versions` prints for the object, and whether it should stand in the snapshot.

What to do: Take the lists of the snapshot again, whole and at one revision. Else a create
isn't in the log.
";

/// `U7`
pub const U7: &str =
    "U7: the event wrote or removed an object that didn't meet the request's preconditions.

How it comes about: A write in between isn't in the log.

Look at: `metadata.resourceVersion` and `metadata.uid` of the request, and what `show`
prints for the object just before it.

What to do: Look for what wrote the object in between: another server's log, or a lost
event. Else a revision was changed.
";

/// `U8`
pub const U8: &str =
    "U8: the event was answered by an object that isn't what its request asked of the one before.

How it comes about: The server filled in or dropped a field that no shape names; a client
sent a strategic merge patch; or a JSON Patch that RFC 6902 refuses and the server takes.

Look at: the request, the answer, and what `show` prints for the place before it: which
field differs?

What to do: Where the server fills that field in, add a shape for it. Where clients send
strategic merge patches, set `objectPatch` to `recorded`. Else a body was changed.
";

/// `U9`
pub const U9: &str = "U9: the event removed an object that can't have been there to be removed.

How it comes about: A namespace was deleted, or pods were, at once by several requests; or
the object's create isn't in the log.

Look at: all deletes of the object, and the reads that show it behind the first of them.

What to do: Don't track namespaces that are deleted within the log, nor pods that are
deleted at once. Look for the create in the other servers' logs. Else a second delete of
one object was put in.
";

/// `U10`
pub const U10: &str =
    "U10: the event shows an object in a version that wasn't the current one at any place of its
window.

How it comes about: The last event of a write was lost, as of an apply with a body in YAML;
a namespace or a pod was on its way out; a read was answered by a cache without asking for
one by `resourceVersion=0`; or the clocks of several servers differ by more than
`slackNanos`.

Look at: which revision the answer shows, who made it (`versions`), and the writes that the
verdict lists.

What to do: Set `slackNanos` to the greatest difference of the servers' clocks. Where a
write is missing, look for it in the other servers' logs. Where caches answer reads, judge
the rest without them. Else an object, a revision or a time was changed.
";

/// `U11`
pub const U11: &str = "U11: the event found nothing where an object was.

How it comes about: A removal isn't in the log: it was lost, or the object went with its
namespace.

Look at: what `versions` prints for the object, and the writes that the verdict lists.

What to do: Look for the delete in the other servers' logs, and at the namespace's deletion.
";

/// `U12`
pub const U12: &str =
    "U12: the event found that an object is there, or was refused for a conflict, where that
can't be.

How it comes about: A create or a write by somebody else isn't in the log; or the clocks of
several servers differ by more than `slackNanos`.

Look at: the answer's reason (`AlreadyExists`, `Conflict`), and what `show` prints for the
object then.

What to do: Set `slackNanos` to the greatest difference of the servers' clocks. Look for the
missing write in the other servers' logs, and for the object in the snapshot's lists.
";

/// `U13`
pub const U13: &str =
    "U13: the event is a list that lacks an object, shows one that wasn't there, twice, or against
its selector, or shows another version of it; or a checkpoint that does.

How it comes about: A write isn't in the log, as after a body in YAML; the clocks of several
servers differ by more than `slackNanos`; or, of a checkpoint, the backup is of another
cluster or another time.

Look at: the list's revision, and what `state` prints for that place: which object differs?

What to do: Set `slackNanos` to the greatest difference of the servers' clocks. Look for the
missing write of that object. Else the list was changed.
";

/// `U14`
pub const U14: &str =
    "U14: the event records a decision that no state of the roles and bindings gives.

How it comes about: The authorizer's caches were behind by some milliseconds and `lagNanos`
is smaller; or another authorizer than RBAC decided, as that for nodes does.

Look at: the event's annotation `authorization.k8s.io/reason`, and what `can` prints for its
user and request at places near it.

What to do: Set `lagNanos` to a second, and name the groups that another authorizer serves
in `skipGroups`. Else a binding isn't in the log, or a decision was changed.
";

/// `V1`
pub const V1: &str =
    "V1: the line, or its word, isn't that of an event: the log or the placement lacks it, or it
has another word than `made`, `removed`, `at` or `none` of its event, or another decision.

How it comes about: The placement is that of another log, of another setup or of an older
copy, or was changed.

Look at: that line of the placement, and the log's line of the same number.

What to do: Judge this log by this setup again, and check that placement.
";

/// `V2`
pub const V2: &str =
    "V2: the line has a place outside its window or range, another revision behind `made` than
was answered, or a cache's place outside the decision's range.

How it comes about: The placement was written or changed by hand, or made by a setup with
another `slackNanos` or `lagNanos`.

Look at: that line's place, and the revisions that were answered before and behind its
event.

What to do: Judge this log by this setup again, and check that placement.
";

// Reasons that lie in how an event is recorded and in what it wrote, with their texts.
const WRITTEN_GUIDES: [Guide; 9] = [
    Guide {
        name: "U1",
        text: U1,
    },
    Guide {
        name: "U2",
        text: U2,
    },
    Guide {
        name: "U3",
        text: U3,
    },
    Guide {
        name: "U4",
        text: U4,
    },
    Guide {
        name: "U5",
        text: U5,
    },
    Guide {
        name: "U6",
        text: U6,
    },
    Guide {
        name: "U7",
        text: U7,
    },
    Guide {
        name: "U8",
        text: U8,
    },
    Guide {
        name: "U9",
        text: U9,
    },
];

// Reasons that lie in what an event shows, and in a placement, with their texts.
const SHOWN_GUIDES: [Guide; 7] = [
    Guide {
        name: "U10",
        text: U10,
    },
    Guide {
        name: "U11",
        text: U11,
    },
    Guide {
        name: "U12",
        text: U12,
    },
    Guide {
        name: "U13",
        text: U13,
    },
    Guide {
        name: "U14",
        text: U14,
    },
    Guide {
        name: "V1",
        text: V1,
    },
    Guide {
        name: "V2",
        text: V2,
    },
];

/// The text of the code of a reason for which an event is unexplained or a placement wrong, or none where there is no
/// such code.
pub fn verdict_text(name: &str) -> Option<&'static str>
    ensures { option_map (λ text. text.now) result ≡ text_in verdict_guides name.now }
{
    text_in(&WRITTEN_GUIDES, name).or(text_in(&SHOWN_GUIDES, name))
}
