ghost use Rattle.std.specs.Prelude.{◌≡◌, codes, filter};
ghost use Rattle.base_types.specs.Meaning.{fields_of};
ghost use Rattle.base_types.specs.Stored.{stored, without, with, is_other, fields_without, fields_with};

use crate::json::tree::{Member, MemberList, Node, Tree};

/// The form in which versions of an object are kept and compared: the tree without root `apiVersion`,
/// root `kind` and `/metadata/managedFields`. It takes no memory.
pub fn stored_form(tree: Tree) -> Tree
    ensures { result ≡ stored tree }
{
    let mut tree = tree;
    drop_member(&mut tree, "apiVersion");
    drop_member(&mut tree, "kind");
    drop_inside(&mut tree, "metadata", "managedFields");
    tree
}

fn drop_member(tree: &mut Tree, name: &str)
    ensures { tree.new ≡ without name.now tree.old }
{
    if let Node::Members(list) = &mut tree.node {
        drop_named(list, name);
    }
}

fn drop_named(list: &mut MemberList, name: &str)
    ensures { fields_of list.new ≡ fields_without name.now (fields_of list.old) }
{
    keep_others(&mut list.all, name);
}

fn keep_others(all: &mut Vec<Member>, name: &str)
    ensures { all.new.items ≡ filter (is_other name.now) all.old.items }
{
    all.retain(
        |member: &Member| -> bool
            ensures { result ≡ is_other name.entry.now member.now }
        { member.name.as_str() != name },
    );
}

fn drop_inside(tree: &mut Tree, name: &str, inner: &str)
    ensures { tree.new ≡ with name.now (without inner.now) tree.old }
{
    if let Node::Members(list) = &mut tree.node {
        drop_of_named(list, name, inner);
    }
}

fn drop_of_named(list: &mut MemberList, name: &str, inner: &str)
    ensures { fields_of list.new ≡ fields_with name.now (without inner.now) (fields_of list.old) }
{
    if let Ok(at) = list.find(name) {
        let member = &mut list.all[at];
        drop_member(&mut member.value, inner);
    }
}
