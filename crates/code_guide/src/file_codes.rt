ghost use Rattle.std.specs.Prelude.{◌≡◌, option_map};
ghost use Rattle.code_guide.specs.Texts.{text_in};
ghost use Rattle.code_guide.specs.FileGuides.{file_guides};

use crate::guide::{Guide, text_in};

/// `file json`
pub const FILE_JSON: &str = "file json: the file isn't one JSON text whose numbers are whole.

How it comes about: It is YAML, an error message of `kubectl`, or was cut off; or an object
in it holds a fraction.

Look at: the file that the line names.

What to do: Take it again with `kubectl get --raw PATH`. A resource whose objects hold
fractions can't be tracked: leave its list out.
";

/// `file kind`
pub const FILE_KIND: &str =
    "file kind: the file is neither an `APIResourceList` nor a list of objects.

How it comes about: It holds a single object, or names groups and versions alone, as `/apis`
and `/apis/GROUP` do.

Look at: `kind` and `apiVersion` of the file.

What to do: Take it again with `kubectl get --raw PATH`: `/api/v1` or `/apis/GROUP/VERSION`
for the resources, and below it the resource's own path for its objects.
";

/// `file pages`
pub const FILE_PAGES: &str = "file pages: the file is a list of which more pages follow.

How it comes about: It was taken with `limit`.

Look at: `metadata.continue` and `metadata.remainingItemCount`.

What to do: Take the whole list, without `limit`.
";

/// `file unknown`
pub const FILE_UNKNOWN: &str =
    "file unknown: the file is a list of a resource that no `APIResourceList` given has.

How it comes about: The file that names the resources of its group is missing; or the list
was taken with `kubectl get -o json`, which puts objects into a list of its own, of `kind`
`List`.

Look at: `apiVersion` and `kind` of the list.

What to do: Give `kubectl get --raw /api/v1`, or `/apis/GROUP/VERSION` of that group, as one
more file. Take a list of `kind` `List` again with `kubectl get --raw PATH`.
";

/// `file version`
pub const FILE_VERSION: &str =
    "file version: the file is a list of a resource that an `APIResourceList` has in another
version alone.

How it comes about: The resources were asked for at one version of the group, and the
objects at another.

Look at: `apiVersion` of the list, and `groupVersion` of the `APIResourceList`.

What to do: Take both at one version.
";

/// `file twice`
pub const FILE_TWICE: &str =
    "file twice: the file is a list of a resource of which a later file is a list too.

How it comes about: A file was given twice, or one list was taken for each namespace.

Look at: the files of that resource.

What to do: Give one list a resource, of all namespaces.
";

/// `file revision`
pub const FILE_REVISION: &str =
    "file revision: the file is a list without a revision, or of another revision than the first
list.

How it comes about: Somebody wrote between two lists. A list without a revision comes from a
server that keeps none, as that of `metrics.k8s.io`, or a program has rewritten it.

Look at: `metadata.resourceVersion` of each list: it is a number, written as a text.

What to do: Take all lists at one revision: `?resourceVersion=N&resourceVersionMatch=Exact`.
Take a list without a revision again with `kubectl get --raw PATH`; where it has none then
either, its resource can't be tracked: leave its list out.
";

// Each fault of a file that a setup is to be made of, with its text.
const FILE_GUIDES: [Guide; 7] = [
    Guide {
        name: "json",
        text: FILE_JSON,
    },
    Guide {
        name: "kind",
        text: FILE_KIND,
    },
    Guide {
        name: "pages",
        text: FILE_PAGES,
    },
    Guide {
        name: "unknown",
        text: FILE_UNKNOWN,
    },
    Guide {
        name: "version",
        text: FILE_VERSION,
    },
    Guide {
        name: "twice",
        text: FILE_TWICE,
    },
    Guide {
        name: "revision",
        text: FILE_REVISION,
    },
];

/// The text of the word of a fault of a file that a setup is to be made of, or none where there is no such code.
#[tactic(auto, unfolding(crate::specs::FileGuides::file_guides))]
pub fn file_text(name: &str) -> Option<&'static str>
    ensures { option_map (λ text. text.now) result ≡ text_in file_guides name.now }
{
    text_in(&FILE_GUIDES, name)
}
