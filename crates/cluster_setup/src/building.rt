ghost use Rattle.std.specs.Prelude.{◌≡◌, IfOk, OnOk};
ghost use Rattle.base_types.specs.Edits.{put};
ghost use Rattle.base_types.specs.Meaning.{items, members, kids_of, fields_of, flag, whole};
ghost use Rattle.cluster_setup.specs.Making.{say};
ghost use Rattle.cluster_setup.specs.Parts.{said};

use base_types::json::{MemberList, Node, Tree, Trees};
use base_types::{OutOfMemory, Text};
use std::alloc::Global;

/// The tree of true or false.
pub fn flag(given: bool) -> Tree
    ensures { result ≡ flag given }
{
    Tree {
        node: Node::Flag(given),
    }
}

/// The tree of a number.
pub fn whole(number: i128) -> Tree
    ensures { result ≡ whole number }
{
    Tree {
        node: Node::Whole(number),
    }
}

/// The tree of a list.
pub fn items(all: Vec<Tree>) -> Tree
    ensures { result ≡ items (kids_of all.items) }
{
    Tree {
        node: Node::Items(Trees { all }),
    }
}

/// The tree of an object.
pub fn object(fields: MemberList) -> Tree
    ensures { result ≡ members (fields_of fields) }
{
    Tree {
        node: Node::Members(fields),
    }
}

/// Puts a value at a name.
pub fn put(
    alloc: Global,
    fields: &mut MemberList,
    name: &str,
    value: Tree,
) -> Result<(), OutOfMemory>
    ensures { OnOk result (fields_of fields.new ≡ put name.now value (fields_of fields.old)) }
{
    let Ok(name) = Text::from_str(alloc, name) else {
        drop(value);
        return Err(OutOfMemory);
    };
    drop(fields.put(name, value)?);
    Ok(())
}

/// Puts a text at a name.
pub fn say(
    alloc: Global,
    fields: &mut MemberList,
    name: &str,
    text: &str,
) -> Result<(), OutOfMemory>
    ensures { OnOk result (fields_of fields.new ≡ say name.now text.now (fields_of fields.old)) }
{
    let words = Tree {
        node: Node::Words(Text::from_str(alloc, text)?),
    };
    put(alloc, fields, name, words)
}

/// The members with these texts at these names.
pub fn said(alloc: Global, texts: &[(&str, &str)]) -> Result<MemberList, OutOfMemory>
    ensures { IfOk result (λ fields. fields_of fields ≡ said texts.now) }
{
    let mut fields = MemberList {
        all: Vec::new(alloc),
    };
    for (name, text) in texts {
        say(alloc, &mut fields, *name, *text)?;
    }
    Ok(fields)
}
