ghost use Rattle.std.specs.Prelude.{◌≡◌, option_map};
ghost use Rattle.code_guide.specs.Texts.{text_in};
ghost use Rattle.code_guide.specs.MakingGuides.{making_guides};

use crate::guide::{Guide, text_in};

/// `setup time`
pub const SETUP_TIME: &str = "setup time: the time isn't a timestamp.

How it comes about: It has no zone, or the words stand in another order.

Look at: the word behind `setup`, or behind `--authorize`.

What to do: Write it as `2026-02-11T14:20:07Z`: a moment just behind the answer of the
first list.
";

/// `setup policy`
pub const SETUP_POLICY: &str = "setup policy: the policy isn't an audit policy as JSON.

How it comes about: It was left in YAML.

Look at: its `kind` `Policy`, its `apiVersion` `audit.k8s.io/v1` and its list `rules`.

What to do: Turn the server's policy file, whole, from YAML into JSON.
";

/// `setup empty`
pub const SETUP_EMPTY: &str = "setup empty: none of the files is a list of objects.

How it comes about: Files that name resources alone were given.

Look at: `kind` of each file.

What to do: Give at least one list, as `kubectl get --raw /api/v1/configmaps` takes it: its
revision is where the log begins.
";

/// `setup resources`
pub const SETUP_RESOURCES: &str =
    "setup resources: the resources of the lists break a rule of setups, whatever their objects
are. The line names the rule, as `resources S14`.

How it comes about: With `--authorize` the list of one of RBAC's four resources is missing
(S14). Any other rule is broken where an `APIResourceList` was changed.

Look at: the rule, as `kubepast explain S14` tells it, and which lists were given.

What to do: Give the lists of `roles`, `clusterroles`, `rolebindings` and
`clusterrolebindings`, with `kubectl get --raw /apis/rbac.authorization.k8s.io/v1`, which
names them; or leave `--authorize` out. Of another rule take the `APIResourceList` again.
";

// Each reason for which no setup can be made, with its text.
const MAKING_GUIDES: [Guide; 4] = [
    Guide {
        name: "time",
        text: SETUP_TIME,
    },
    Guide {
        name: "policy",
        text: SETUP_POLICY,
    },
    Guide {
        name: "empty",
        text: SETUP_EMPTY,
    },
    Guide {
        name: "resources",
        text: SETUP_RESOURCES,
    },
];

/// The text of the word of a reason for which no setup can be made, or none where there is no such code.
#[tactic(auto, unfolding(crate::specs::MakingGuides::making_guides))]
pub fn making_text(name: &str) -> Option<&'static str>
    ensures { option_map (λ text. text.now) result ≡ text_in making_guides name.now }
{
    text_in(&MAKING_GUIDES, name)
}
