ghost use Rattle.std.specs.Prelude.{◌≡◌, option_map};
ghost use Rattle.code_guide.specs.Texts.{text_in};
ghost use Rattle.code_guide.specs.StatusGuides.{status_guides};

use crate::guide::{Guide, text_in};

/// `status 0`
pub const STATUS_0: &str =
    "status 0: the log is explained (with `--strict`: and nothing crosses), the placement holds,
or what was asked for was done. Written is the verdict, `holds`, or the text that was asked
for; a history is answered whatever the verdict is.

How it comes about: This is what a true log gives under a setup that fits it.

Look at: the text that was written.

What to do: Nothing. It says that the log can be true, not that it is.
";

/// `status 1`
pub const STATUS_1: &str =
    "status 1: the log is unexplained, two of its lines cross, or the placement is wrong. Written
is the verdict, `crossed A B` or `wrong LINE CODE`; by `picture` a page.

How it comes about: True logs were seen that don't fit their setup: fields that a server
fills in, lost events, deleted namespaces, clocks that differ.

Look at: the code that was written, as `U10` or `V2`, or the two lines behind `crossed`.

What to do: Ask for that code: `kubepast explain U10`. With `crossed` read both lines; the
first shows an earlier revision than the second, and began after that had ended.
";

/// `status 2`
pub const STATUS_2: &str = "status 2: the words are no command, or name no code. Written is `usage`.

How it comes about: A name is missing, SETUP and LOG are one name, SETUP is `-`, or a number
has leading zeros.

Look at: the words that were given, and the table of words in docs/FORMATS.md.

What to do: Call again. A key begins with a slash where its group is empty.
";

/// `status 3`
pub const STATUS_3: &str =
    "status 3: the setup breaks a rule, or none can be made of what was given. Written is
`setup CODE`; by `setup` one of the lines `time`, `policy`, `empty`, `resources RULE` and
`file FILE CODE`.

How it comes about: It was written by hand, or its lists were taken at different moments.

Look at: the code: `judge` says `setup S12`; `setup` says `time`, or names a rule as in
`resources S14`, or a file as in `file pods.json pages`.

What to do: Ask for that code: `kubepast explain S12`, `kubepast explain setup time`,
`kubepast explain setup resources`, `kubepast explain file pages`.
";

/// `status 4`
pub const STATUS_4: &str =
    "status 4: an event of the log breaks a rule, or a placement can't be read. Written is
`malformed LINE CODE` of the first such event, or `placement LINE` of the first line that
can't be read.

How it comes about: A line was cut off, or a client sent what a server logs and no rule
admits.

Look at: the line and the code behind `malformed`, or the line behind `placement`.

What to do: Ask for that code: `kubepast explain M9`. A placement breaks off where its line
can't be continued: give the whole text that `judge` printed.
";

/// `status 5`
pub const STATUS_5: &str = "status 5: opening or reading a file failed. Written is `read fault`.

How it comes about: A name is misspelt, the file can't be read by you, or a disk failed. In
what the judge read before, nothing is refused; `setup` reads all files before it refuses any.

Look at: the names and their permissions.

What to do: Call again.
";

/// `status 6`
pub const STATUS_6: &str =
    "status 6: writing failed: what was written is the front of the text alone.

How it comes about: The disk is full, or the program that was to read the text has ended.

Look at: where the output goes.

What to do: Call again; the text isn't whole.
";

/// `status 7`
pub const STATUS_7: &str = "status 7: a limit is passed. Written is `limit NAME`.

How it comes about: The log, the setup or another file is larger than what is held in
memory.

Look at: the name behind `limit`.

What to do: Ask for it: `kubepast explain limit events`.
";

/// `status 8`
pub const STATUS_8: &str = "status 8: no memory was found; nothing was written.

How it comes about: The log needs more memory than the machine, or its limit for the
program, has. Words of a question of which only KEY, POINTER or URI is wrong may end so too,
since to read these takes memory.

Look at: the size of the log, and the limits that are set for the program.

What to do: Call again with more memory, or judge a shorter log.
";

/// `status 70`
pub const STATUS_70: &str = "status 70: the program was not proved or not built; nothing was run.

How it comes about: It was to be built first, and the kit isn't on the PATH, memory or disk
ran out, or a source was changed.

Look at: what standard error says.

What to do: Mend that, and call again. This status comes of `./kubepast` alone, and no
answer has it.
";

// Each exit status, with its text.
const STATUS_GUIDES: [Guide; 10] = [
    Guide {
        name: "0",
        text: STATUS_0,
    },
    Guide {
        name: "1",
        text: STATUS_1,
    },
    Guide {
        name: "2",
        text: STATUS_2,
    },
    Guide {
        name: "3",
        text: STATUS_3,
    },
    Guide {
        name: "4",
        text: STATUS_4,
    },
    Guide {
        name: "5",
        text: STATUS_5,
    },
    Guide {
        name: "6",
        text: STATUS_6,
    },
    Guide {
        name: "7",
        text: STATUS_7,
    },
    Guide {
        name: "8",
        text: STATUS_8,
    },
    Guide {
        name: "70",
        text: STATUS_70,
    },
];

/// The text of the number of an exit status, or none where there is no such code.
#[tactic(auto, unfolding(crate::specs::StatusGuides::status_guides))]
pub fn status_text(name: &str) -> Option<&'static str>
    ensures { option_map (λ text. text.now) result ≡ text_in status_guides name.now }
{
    text_in(&STATUS_GUIDES, name)
}
