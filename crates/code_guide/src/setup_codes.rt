ghost use Rattle.std.specs.Prelude.{◌≡◌, option_map};
ghost use Rattle.code_guide.specs.Texts.{text_in};
ghost use Rattle.code_guide.specs.SetupGuides.{setup_guides};

use crate::guide::{Guide, text_in};

/// `S1`
pub const S1: &str =
    "S1: the setup isn't one JSON text, or holds a number that isn't whole or isn't from -2^63 to
2^64 - 1.

How it comes about: It was written as YAML, or by hand with a comma too many; or an object
of the snapshot holds a fraction.

Look at: where `jq . setup.json` stops, and at numbers with a dot.

What to do: Write JSON. A resource whose objects hold fractions can't be tracked: leave it
out of `resources` and `snapshot`.
";

/// `S2`
pub const S2: &str =
    "S2: the setup isn't an object of `kind` `PastSetup`, lacks a required member other than
`version`, or has one that isn't known.

How it comes about: A member is misspelt; or `checkpoints` stands in a setup whose `version`
is 1.

Look at: the setup's own members: `kind`, `version`, `start`, `until`, `slackNanos`,
`lagNanos`, `policy`, `resources`, `snapshot`, `authorize`, `bypassGroups`, `skipGroups`,
`checkpoints`.

What to do: Correct the name. `checkpoints` needs `version` 2.
";

/// `S3`
pub const S3: &str = "S3: `version` is missing, or neither 1 nor 2.

How it comes about: It was forgotten, or written as a text.

Look at: `version`, which is a number.

What to do: Write 1, or 2 where there are `checkpoints`.
";

/// `S4`
pub const S4: &str =
    "S4: `start` isn't an object of `revision`, a text, and `time`, a timestamp, and nothing
else.

How it comes about: The revision was written as a number, or the time without its zone.

Look at: `start`: the revision is a text, decimal and without leading zeros, from 1 to
18446744073709551614.

What to do: Take the revision from the list's `metadata.resourceVersion` and the time from a
clock just behind its answer, as `2026-02-11T14:20:07Z`.
";

/// `S5`
pub const S5: &str = "S5: `until` isn't a timestamp, or is before the start.

How it comes about: It was set to null, or left over from another log.

Look at: `until` and `start`.

What to do: Leave it out where there is no end, in place of null. Else take a moment at
which all earlier requests had been logged.
";

/// `S6`
pub const S6: &str = "S6: `slackNanos` or `lagNanos` isn't a whole number from 0 to 10^18.

How it comes about: It was written as a text, or with a unit.

Look at: both members: they are nanoseconds.

What to do: Write a number; a second is 1000000000.
";

/// `S7`
pub const S7: &str = "S7: `policy` isn't an audit policy.

How it comes about: It was copied from the server in part, or is of another version; or a
rule has both `nonResourceURLs` and `resources` or `namespaces`.

Look at: its `kind` `Policy`, its `apiVersion` `audit.k8s.io/v1`, its list `rules`, and
lists in it that are null.

What to do: Turn the server's policy file, whole, from YAML into JSON.
";

/// `S8`
pub const S8: &str =
    "S8: an entry of `resources` isn't of its form; shapes and subresources are looked at later.

How it comes about: A member is missing, misspelt or empty: all texts but `group` have at
least one byte.

Look at: `group`, `version`, `resource`, `kind`, `listKind`, `namespaced` and `objectPatch`
of each entry.

What to do: Take the names from `kubectl get --raw /api/v1`, or from `/apis/GROUP/VERSION`.
";

/// `S9`
pub const S9: &str =
    "S9: two entries of `resources` have one group and resource, or one group and kind.

How it comes about: A resource was entered once for each of its versions.

Look at: the entries of that group.

What to do: Keep one entry a resource, with the version that the list of its objects has.
";

/// `S10`
pub const S10: &str = "S10: the `shapes` of an entry aren't of their form.

How it comes about: A pointer doesn't begin with `/`, or the class is none of `Asked`,
`Defaulted`, `Kept` and `Owned`.

Look at: `path` and `class` of each shape.

What to do: Correct them. In a path `*` stands for any name or index.
";

/// `S11`
pub const S11: &str =
    "S11: the `subresources` of an entry aren't of their form, or one name stands twice.

How it comes about: `effect` is neither `same` nor `none`, or a name was entered again.

Look at: `name`, `effect` and `shapes` of each subresource.

What to do: Keep one entry a name. A subresource that writes something else than its object
has no entry.
";

/// `S12`
pub const S12: &str =
    "S12: `snapshot` isn't of its form, or one of its objects isn't one of a tracked resource.

How it comes about: An item of a list was put in as it was, without its group and resource;
or the `kind` of an object isn't that of its entry.

Look at: `metadata` of each object: a name, a uid, a revision and, exactly where its
resource is namespaced, a namespace.

What to do: Give each object as the member `object` beside its `group` and its `resource`,
with the `kind` of the entry or with none.
";

/// `S13`
pub const S13: &str =
    "S13: two objects of the snapshot have one key, uid or revision, or one is above the start.

How it comes about: The lists were taken at different revisions while somebody wrote.

Look at: `start.revision`, and the `metadata.resourceVersion` of each list.

What to do: Take all lists again at one revision:
`?resourceVersion=N&resourceVersionMatch=Exact`.
";

/// `S14`
pub const S14: &str =
    "S14: `authorize` or a list of groups isn't of its form; or with `authorize` one of RBAC's
four resources isn't tracked, or a role or binding of the snapshot can't be read.

How it comes about: `authorize` was switched on before roles and bindings were put into the
setup.

Look at: `authorize`, `bypassGroups`, `skipGroups`, and the entries and objects of
`rbac.authorization.k8s.io`.

What to do: Track `roles`, `clusterroles`, `rolebindings` and `clusterrolebindings` with all
of their objects, or leave `authorize` out.
";

/// `S15`
pub const S15: &str = "S15: `checkpoints` isn't of its form, or one of them can't serve.

How it comes about: A list was taken in pages, is older than the start, or is of a resource
that isn't tracked.

Look at: `metadata.continue` and `metadata.resourceVersion` of each list.

What to do: Give at most 10,000 whole lists of tracked resources, none of them below the
start.
";

// Rules of a setup and its own members, with their texts.
const MEMBER_GUIDES: [Guide; 7] = [
    Guide {
        name: "S1",
        text: S1,
    },
    Guide {
        name: "S2",
        text: S2,
    },
    Guide {
        name: "S3",
        text: S3,
    },
    Guide {
        name: "S4",
        text: S4,
    },
    Guide {
        name: "S5",
        text: S5,
    },
    Guide {
        name: "S6",
        text: S6,
    },
    Guide {
        name: "S7",
        text: S7,
    },
];

// Rules of what it tracks and what was there, with their texts.
const CONTENT_GUIDES: [Guide; 8] = [
    Guide {
        name: "S8",
        text: S8,
    },
    Guide {
        name: "S9",
        text: S9,
    },
    Guide {
        name: "S10",
        text: S10,
    },
    Guide {
        name: "S11",
        text: S11,
    },
    Guide {
        name: "S12",
        text: S12,
    },
    Guide {
        name: "S13",
        text: S13,
    },
    Guide {
        name: "S14",
        text: S14,
    },
    Guide {
        name: "S15",
        text: S15,
    },
];

/// The text of the code of a rule that a setup can break, or none where there is no such code.
pub fn setup_text(name: &str) -> Option<&'static str>
    ensures { option_map (λ text. text.now) result ≡ text_in setup_guides name.now }
{
    text_in(&MEMBER_GUIDES, name).or(text_in(&CONTENT_GUIDES, name))
}
