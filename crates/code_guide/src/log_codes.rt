ghost use Rattle.std.specs.Prelude.{◌≡◌, option_map};
ghost use Rattle.code_guide.specs.Texts.{text_in};
ghost use Rattle.code_guide.specs.LogGuides.{log_guides};

use crate::guide::{Guide, text_in};

/// `M1`
pub const M1: &str =
    "M1: the line isn't one JSON text in UTF-8, is nested deeper than 127, or has a number too
large for a float.

How it comes about: A log that is copied while the server writes it ends in the middle of a
line. A patch is logged as it came, also with bytes that aren't UTF-8 or with `1e999`, so
that whoever may patch one object can bring this about.

Look at: the end of the line: is it the log's last one, and cut off? Else at its `verb` and
`user`.

What to do: Cut the log behind its last newline, or wait for the rest. `kubepast sift`
leaves any other such line out; say so beside the verdict, since a write that is left out
can make later events unexplained.
";

/// `M2`
pub const M2: &str =
    "M2: the line is JSON, but neither an object with `kind` `Event` and `apiVersion`
`audit.k8s.io/v1` nor such an `EventList` with a list `items`; or an item isn't an `Event`.

How it comes about: Another file was given, another program writes to the same one, or the
server writes another version of the audit API.

Look at: `kind` and `apiVersion` on that line.

What to do: Judge the audit log alone, and let the server write `audit.k8s.io/v1`.
";

/// `M3`
pub const M3: &str = "M3: `level` isn't `Metadata`, `Request` or `RequestResponse`.

How it comes about: An API server writes no such event: it was edited, or a program on the
log's way rewrote it.

Look at: the line itself, and at each program that handles the log between the server and
you.

What to do: Take the log from the server's own disk and judge that. Where the line stands
there too, ask who may write to it.
";

/// `M4`
pub const M4: &str =
    "M4: `stage` isn't `RequestReceived`, `ResponseStarted`, `ResponseComplete` or `Panic`.

How it comes about: An API server writes no such event: it was edited, or a program on the
log's way rewrote it.

Look at: the line itself, and at each program that handles the log between the server and
you.

What to do: Take the log from the server's own disk and judge that. Where the line stands
there too, ask who may write to it.
";

/// `M5`
pub const M5: &str =
    "M5: a timestamp can't be read, or `stageTimestamp` is before `requestReceivedTimestamp`.

How it comes about: The server's clock was set back while a request ran, by hand or by its
time service.

Look at: both timestamps of the line, and what the server's time service did then.

What to do: Judge what lies before and what lies behind the step as two logs, each with a
setup of its own. If it is one line, leave it out with `kubepast sift`, and say so beside
the verdict.
";

/// `M6`
pub const M6: &str =
    "M6: a number outside the two bodies isn't whole, or isn't from -2^63 to 2^64 - 1.

How it comes about: A webhook, or a program that passes the log on, adds members of its own
to events.

Look at: the members of the event other than `requestObject` and `responseObject`.

What to do: Take the log from the server itself, or drop the added members, which aren't
read anyway.
";

/// `M7`
pub const M7: &str = "M7: `auditID` isn't a text, or is empty.

How it comes about: An API server writes no such event: it was edited, or a program on the
log's way rewrote it.

Look at: the line itself, and at each program that handles the log between the server and
you.

What to do: Take the log from the server's own disk and judge that. Where the line stands
there too, ask who may write to it.
";

/// `M8`
pub const M8: &str = "M8: `requestURI` isn't a text.

How it comes about: An API server writes no such event: it was edited, or a program on the
log's way rewrote it.

Look at: the line itself, and at each program that handles the log between the server and
you.

What to do: Take the log from the server's own disk and judge that. Where the line stands
there too, ask who may write to it.
";

/// `M9`
pub const M9: &str =
    "M9: `verb` isn't a text or is empty, or the URI doesn't begin with `/` or has escapes that
are broken or aren't UTF-8.

How it comes about: A client sent another method than GET, HEAD, POST, PUT, PATCH and
DELETE, or a path such as `/%FF`. The server logs both, and any client can send them,
without any rights.

Look at: `verb`, `requestURI`, `user` and the status code of the answer on that line.

What to do: Leave such lines out with `kubepast sift`, and say so beside the verdict.
";

/// `M10`
pub const M10: &str =
    "M10: `user` isn't an object, or a `username` is no text, or `groups` isn't null or a list of
texts; or the same of an `impersonatedUser` that is there; null is none.

How it comes about: An API server writes no such event: it was edited, or a program on the
log's way rewrote it.

Look at: the line itself, and at each program that handles the log between the server and
you.

What to do: Take the log from the server's own disk and judge that. Where the line stands
there too, ask who may write to it.
";

/// `M11`
pub const M11: &str =
    "M11: `responseStatus` is there and isn't an object, or has a `code` that isn't a whole number
from 0 to 999; null is none.

How it comes about: An API server writes no such event: it was edited, or a program on the
log's way rewrote it.

Look at: the line itself, and at each program that handles the log between the server and
you.

What to do: Take the log from the server's own disk and judge that. Where the line stands
there too, ask who may write to it.
";

/// `M12`
pub const M12: &str =
    "M12: the event has the audit ID and the stage of an earlier one, and differs from it.

How it comes about: A client chose its `Audit-ID` twice, which any client may do; the logs
of two clusters were put together; or a copy of an event was edited. A log that was merely
delivered twice doesn't bring this about.

Look at: all lines with this `auditID`: their users, their times and what they differ in.

What to do: Judge each cluster's log by itself. Of two events of one client `kubepast sift`
leaves the later one out; say so beside the verdict.
";

// Rules of a line, and of an event's level, stage, times and numbers, with their texts.
const LINE_GUIDES: [Guide; 6] = [
    Guide {
        name: "M1",
        text: M1,
    },
    Guide {
        name: "M2",
        text: M2,
    },
    Guide {
        name: "M3",
        text: M3,
    },
    Guide {
        name: "M4",
        text: M4,
    },
    Guide {
        name: "M5",
        text: M5,
    },
    Guide {
        name: "M6",
        text: M6,
    },
];

// Rules of what an event tells of its request, and of the events of one request, with their texts.
const REQUEST_GUIDES: [Guide; 6] = [
    Guide {
        name: "M7",
        text: M7,
    },
    Guide {
        name: "M8",
        text: M8,
    },
    Guide {
        name: "M9",
        text: M9,
    },
    Guide {
        name: "M10",
        text: M10,
    },
    Guide {
        name: "M11",
        text: M11,
    },
    Guide {
        name: "M12",
        text: M12,
    },
];

/// The text of the code of a rule that an event of the log can break, or none where there is no such code.
pub fn log_text(name: &str) -> Option<&'static str>
    ensures { option_map (λ text. text.now) result ≡ text_in log_guides name.now }
{
    text_in(&LINE_GUIDES, name).or(text_in(&REQUEST_GUIDES, name))
}
