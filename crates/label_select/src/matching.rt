ghost use Rattle.std.specs.Prelude.{◌≡◌, option_map};
ghost use Rattle.label_select.specs.Meeting.{label_of, allows_missing, allows_value, is_met, matches};

use crate::selector::{Requirement, Selector, Test};
use base_types::json::Tree;
use base_types::{Text, has_text};

fn label_of<'a>(key: &Text, labels: Option<&'a Tree>) -> Option<&'a Text>
    ensures { option_map (λ text. text.now) result ≡ label_of key.now
        (option_map (λ tree. tree.now) labels.entry) }
{
    labels?.member(key.as_str())?.as_text()
}

impl Test {
    fn allows_missing(&self) -> bool
        ensures { result ≡ allows_missing self.now }
    {
        match self {
            Test::Exists | Test::Is(_) | Test::In(_) => false,
            Test::Missing | Test::IsNot(_) | Test::NotIn(_) => true,
        }
    }

    fn allows_value(&self, label: &Text) -> bool
        ensures { result ≡ allows_value self.now label.now }
    {
        match self {
            Test::Exists => true,
            Test::Missing => false,
            Test::Is(value) => label == value,
            Test::IsNot(value) => label != value,
            Test::In(values) => has_text(values, label),
            Test::NotIn(values) => !has_text(values, label),
        }
    }
}

impl Requirement {
    fn is_met(&self, labels: Option<&Tree>) -> bool
        ensures { result ≡ is_met (option_map (λ tree. tree.now) labels.entry) self.now }
    {
        match label_of(&self.key, labels) {
            Some(label) => self.test.allows_value(label),
            None => self.test.allows_missing(),
        }
    }
}

/// Whether a selector takes labels: the tree at `/metadata/labels` of an object, where there is one.
/// A label is a member of an object with a text as its value; there is no other label.
pub fn matches(selector: &Selector, labels: Option<&Tree>) -> bool
    ensures { result ≡ matches selector.now (option_map (λ tree. tree.now) labels.entry) }
{
    selector
        .iter()
        .all(|requirement| requirement.is_met(labels))
}
