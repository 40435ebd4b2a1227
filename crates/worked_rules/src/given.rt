// What the tests are given: texts, trees and a user.
ghost use Rattle.std.specs.Prelude.{◌≡◌};

use base_types::json::{Tree, from_value};
use base_types::{Text, Texts, User};
use serde_json::Value;
use std::process::Abort;

pub(crate) fn text(rt: &(impl Abort + AllocGlobal), text: &str) -> Text
    ensures { result ≡ text.now }
{
    Text::from_str(rt.alloc(), text).expect(rt, "memory")
}

pub(crate) fn tree(rt: &(impl Abort + AllocGlobal), text: &str) -> Tree {
    let value = Value::from_str(rt.alloc(), text).expect(rt, "JSON");
    let tree = from_value(rt.alloc(), &value).expect(rt, "a tree");
    drop(value);
    tree
}

pub(crate) fn user(rt: &(impl Abort + AllocGlobal), name: &str, groups: &[&str]) -> User {
    let mut all = Texts::new(rt.alloc());
    for group in groups {
        all.push(text(rt, group)).expect(rt, "memory");
    }
    User {
        name: text(rt, name),
        groups: all,
    }
}

pub(crate) fn assert_text(rt: &impl Abort, found: &Text, wanted: &str) {
    assert_eq!(rt; found.as_str(), wanted);
}

pub(crate) fn assert_count(rt: &impl Abort, found: usize, wanted: usize) {
    assert_eq!(rt; found, wanted);
}
