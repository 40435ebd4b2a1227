ghost use Rattle.std.specs.Prelude.{◌≡◌, option_map};
ghost use Rattle.code_guide.specs.Texts.{text_in};
ghost use Rattle.code_guide.specs.LimitGuides.{limit_guides};

use crate::guide::{Guide, text_in};

/// `limit setup`
pub const LIMIT_SETUP: &str =
    "limit setup: the setup has more than 268,435,456 bytes. It is read whole.

How it comes about: Its snapshot has very many objects.

Look at: which resources have the most.

What to do: Track fewer resources.
";

/// `limit line`
pub const LIMIT_LINE: &str =
    "limit line: a line of the log has more than 16,777,216 bytes. Each line is read whole.

How it comes about: In a large cluster one list of everything can have that size.

Look at: the longest line of the log.

What to do: Record lists of resources that aren't judged at a lower level, or leave that
line out with `kubepast sift`, and say so beside the verdict.
";

/// `limit events`
pub const LIMIT_EVENTS: &str =
    "limit events: the log has more than 4,194,304 events, repeats aside. Each takes about 300
bytes of memory, beside its bodies.

How it comes about: It is long, or records stages and resources that aren't judged.

Look at: how many events each resource and stage has.

What to do: Judge it in parts, each with a setup of its own, or leave out what isn't
tracked.
";

/// `limit input`
pub const LIMIT_INPUT: &str =
    "limit input: the log has more than 2^40 bytes. The numbers of its lines end there.

How it comes about: It is very long, or what is read never ends.

Look at: what LOG names.

What to do: Judge it in parts, each with a setup of its own.
";

/// `limit file`
pub const LIMIT_FILE: &str =
    "limit file: a policy or a file that is given to `setup` has more than 268,435,456 bytes.
Each is read whole.

How it comes about: In a large cluster the list of one resource can have that size. No policy
has it.

Look at: the sizes of the files.

What to do: Leave that list out, so that its resource isn't tracked; a list can't be given in
parts. A setup of several lists may have no more bytes either (`limit setup`).
";

/// `limit placement`
pub const LIMIT_PLACEMENT: &str =
    "limit placement: the placement has more than 1,073,741,824 bytes. It is read whole.

How it comes about: It isn't what `judge` printed: no text of an explained log reaches that
size.

Look at: what PLACEMENT names.

What to do: Give the text that `judge` printed.
";

/// `limit pool`
pub const LIMIT_POOL: &str =
    "limit pool: the objects of setup and log have more than 50,000,000 distinct values. Each takes
about 80 bytes of memory, equal ones once.

How it comes about: Very many large objects, each different, were written.

Look at: which resources have the largest bodies.

What to do: Track fewer resources, or judge the log in parts.
";

// Each limit, with its text.
const LIMIT_GUIDES: [Guide; 7] = [
    Guide {
        name: "setup",
        text: LIMIT_SETUP,
    },
    Guide {
        name: "line",
        text: LIMIT_LINE,
    },
    Guide {
        name: "events",
        text: LIMIT_EVENTS,
    },
    Guide {
        name: "input",
        text: LIMIT_INPUT,
    },
    Guide {
        name: "file",
        text: LIMIT_FILE,
    },
    Guide {
        name: "placement",
        text: LIMIT_PLACEMENT,
    },
    Guide {
        name: "pool",
        text: LIMIT_POOL,
    },
];

/// The text of the name of a limit, or none where there is no such code.
#[tactic(auto, unfolding(crate::specs::LimitGuides::limit_guides))]
pub fn limit_text(name: &str) -> Option<&'static str>
    ensures { option_map (λ text. text.now) result ≡ text_in limit_guides name.now }
{
    text_in(&LIMIT_GUIDES, name)
}
