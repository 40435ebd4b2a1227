ghost use Rattle.std.specs.Prelude.{◌≡◌, codes, option_map};
ghost use Rattle.answer_class.specs.Bodies.{metadata_at};
ghost use Rattle.answer_class.specs.Labels.{is_selected, is_listable};

use crate::answer::Answer;
use base_types::json::Tree;
use label_select::{Selector, matches};

fn labels_of(tree: &Tree) -> Option<&Tree>
    ensures { option_map (λ tree. tree.now) result ≡ metadata_at (codes "labels") tree.now }
{
    tree.member("metadata")?.member("labels")
}

fn is_selected(selector: &Option<Selector>, tree: &Tree) -> bool
    ensures { result ≡ is_selected selector.now tree.now }
{
    match selector {
        Some(selector) => matches(selector, labels_of(tree)),
        None => true,
    }
}

/// Whether a list has the object of this tree: where a whole list has a label selector, it takes the object's labels
/// (Kubernetes "Labels and Selectors").
pub fn listable(answer: &Answer, tree: &Tree) -> bool
    ensures { result ≡ is_listable answer.now tree.now }
{
    match answer {
        Answer::Listed { selector, .. } => is_selected(selector, tree),
        _ => true,
    }
}
