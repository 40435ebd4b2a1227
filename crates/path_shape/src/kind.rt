ghost use Rattle.std.specs.Prelude.{◌≡◌, ◌↔◌, IsTrue};
ghost use Rattle.path_shape.specs.Agreement.{kind, kind_of};
ghost use Rattle.path_shape.specs.Forms.{thin, left_of};
ghost use Rattle.path_shape.specs.Walk.{form, meant_kind};

use crate::part::{Part, is_empty_list};
use base_types::Text;
use base_types::json::{Node, Tree};

/// The kind of a part: object, list, or the scalar itself.
#[derive(Clone, Copy)]
pub enum Kind<'a> {
    Object,
    List,
    Null,
    Flag(bool),
    Whole(i128),
    Words(&'a Text),
}

/// The kind of a part, which is an object's where it is absent.
pub fn kind_of<'a>(part: Part<'a>) -> Kind<'a>
    ensures { meant_kind result ≡ kind (form part.entry) }
{
    match part {
        Part::Absent => Kind::Object,
        Part::Member(tree) => kind_of_value(tree),
        Part::Item(tree) => kind_of_item(tree),
    }
}

fn kind_of_value<'a>(tree: &'a Tree) -> Kind<'a>
    ensures { meant_kind result ≡ kind (left_of tree.now) }
{
    match &tree.node {
        Node::Null => Kind::Object,
        Node::Items(list) => {
            if is_empty_list(list) {
                Kind::Object
            } else {
                Kind::List
            }
        }
        Node::Flag(flag) => Kind::Flag(*flag),
        Node::Whole(number) => Kind::Whole(*number),
        Node::Words(text) => Kind::Words(text),
        Node::Members(_) => Kind::Object,
    }
}

fn kind_of_item<'a>(tree: &'a Tree) -> Kind<'a>
    ensures { meant_kind result ≡ kind_of (thin tree.now) }
{
    match &tree.node {
        Node::Null => Kind::Null,
        Node::Flag(flag) => Kind::Flag(*flag),
        Node::Whole(number) => Kind::Whole(*number),
        Node::Words(text) => Kind::Words(text),
        Node::Items(_) => Kind::List,
        Node::Members(_) => Kind::Object,
    }
}

fn is_equal_kind(a: Kind<'_>, b: Kind<'_>) -> bool
    ensures { IsTrue result ↔ (meant_kind a.entry ≡ meant_kind b.entry) }
{
    match (a, b) {
        (Kind::Object, Kind::Object) => true,
        (Kind::List, Kind::List) => true,
        (Kind::Null, Kind::Null) => true,
        (Kind::Flag(x), Kind::Flag(y)) => x == y,
        (Kind::Whole(x), Kind::Whole(y)) => x == y,
        (Kind::Words(x), Kind::Words(y)) => x.as_str() == y.as_str(),
        _ => false,
    }
}

/// Whether two parts have one kind.
pub fn is_same_kind(a: Part<'_>, b: Part<'_>) -> bool
    ensures { IsTrue result ↔ (kind (form a.entry) ≡ kind (form b.entry)) }
{
    is_equal_kind(kind_of(a), kind_of(b))
}
