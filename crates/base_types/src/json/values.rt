ghost use Rattle.std.specs.Prelude.{◌≡◌, Some, None, Err, IfOk};
ghost use Rattle.serde_json.specs.View.{view, number_view, items_view, members_view};
ghost use Rattle.serde_json.specs.Find.{of_integer};
ghost use Rattle.base_types.specs.Meaning.{whole, kids_of, fields_of};
ghost use Rattle.base_types.specs.Values.{of_number, of_data, of_items, of_members, IsInteger, InRange};
ghost use Rattle.base_types.specs.Values.{KidsInRange, FieldsInRange, data_of, data_items, data_members};

use crate::foundation::{OutOfMemory, Text};
use crate::json::tree::{Member, MemberList, Node, Tree, TreeFault, Trees};
use serde_json::{Map, Number, Value};
use std::alloc::Global;

/// The tree of a JSON value. The text is RFC 8259's; that of its numbers which `serde_json` reads as
/// floating point, as `1.0`, `-0` and `1e2`, have no tree.
#[cycle(from_value)]
pub fn from_value(alloc: Global, value: &Value) -> Result<Tree, TreeFault>
    ensures ok { IfOk result (λ t. of_data (view value.now) ≡ Some t) }
    ensures range { IfOk result (λ t. InRange t) }
    ensures fraction { result ≡ Err TreeFault.Fraction → of_data (view value.now) ≡ None }
{
    let node = match value {
        Value::Null => Node::Null,
        Value::Bool(flag) => Node::Flag(*flag),
        Value::Number(number) => Node::Whole(from_number(number)?),
        Value::String(text) => Node::Words(Text::from_str(alloc, text)?),
        Value::Array(list) => Node::Items(from_items(alloc, list)?),
        Value::Object(map) => Node::Members(from_members(alloc, map)?),
    };
    Ok(Tree { node })
}

/// The whole number that a JSON number is. One that `serde_json` reads as floating point is none.
pub fn from_number(number: &Number) -> Result<i128, TreeFault>
    ensures ok { IfOk result (λ z. of_number (number_view number.now) ≡ Some (whole z)) }
    ensures range { IfOk result IsInteger }
    ensures fraction { result ≡ Err TreeFault.Fraction → of_number (number_view number.now) ≡ None }
{
    match (number.as_u64(), number.as_i64()) {
        (Some(number), _) => Ok(number as i128),
        (None, Some(number)) => Ok(number as i128),
        (None, None) => Err(TreeFault::Fraction),
    }
}

#[cycle(from_value)]
fn from_items(alloc: Global, list: &Vec<Value>) -> Result<Trees, TreeFault>
    ensures ok { IfOk result (λ ts. of_items (items_view list.now.items) ≡ Some (kids_of ts)) }
    ensures range { IfOk result (λ ts. KidsInRange (kids_of ts)) }
    ensures fraction { result ≡ Err TreeFault.Fraction → of_items
        (items_view list.now.items) ≡ None }
{
    let mut all = Vec::with_capacity(alloc, list.len())?;
    for item in list {
        all.push(from_value(alloc, item)?)?;
    }
    Ok(Trees { all })
}

#[cycle(from_value)]
fn from_members(alloc: Global, map: &Map<String, Value>) -> Result<MemberList, TreeFault>
    ensures ok { IfOk result (λ ms. of_members (members_view map.now.entries)
        ≡ Some (fields_of ms)) }
    ensures range { IfOk result (λ ms. FieldsInRange (fields_of ms)) }
    ensures fraction { result ≡ Err TreeFault.Fraction → of_members
        (members_view map.now.entries) ≡ None }
{
    let mut all = Vec::with_capacity(alloc, map.len())?;
    for (key, member) in map.iter() {
        let name = Text::from_str(alloc, key)?;
        let value = from_value(alloc, member)?;
        all.push(Member { name, value })?;
    }
    Ok(MemberList { all })
}

/// The JSON value of a tree.
pub fn to_value(alloc: Global, tree: &Tree) -> Result<Value, OutOfMemory>
    requires { InRange tree.now }
    ensures value { IfOk result (λ v. view v ≡ data_of tree.now) }
    ensures reads_back { IfOk result (λ v. of_data (view v) ≡ Some tree.now) }
{
    value_of(alloc, tree)
}

#[cycle(value_of)]
fn value_of(alloc: Global, tree: &Tree) -> Result<Value, OutOfMemory>
    requires { InRange tree.now }
    ensures { IfOk result (λ v. view v ≡ data_of tree.now) }
{
    match &tree.node {
        Node::Null => Ok(Value::Null),
        Node::Flag(flag) => Ok(Value::Bool(*flag)),
        Node::Whole(number) => Ok(Value::Number(to_number(*number))),
        Node::Words(text) => Ok(Value::String(String::from_str(alloc, text.as_str())?)),
        Node::Items(list) => Ok(Value::Array(to_items(alloc, list)?)),
        Node::Members(list) => Ok(Value::Object(to_members(alloc, list)?)),
    }
}

fn to_number(number: i128) -> Number
    requires { IsInteger number }
    ensures { number_view result ≡ of_integer number }
{
    match Number::from_i128(number) {
        Some(number) => number,
        None => unreachable!(),
    }
}

#[cycle(value_of)]
fn to_items(alloc: Global, list: &Trees) -> Result<Vec<Value>, OutOfMemory>
    requires { KidsInRange (kids_of list.now) }
    ensures { IfOk result (λ made. items_view made.items ≡ data_items (kids_of list.now)) }
{
    let mut all = Vec::with_capacity(alloc, list.all.len())?;
    for item in &list.all {
        all.push(value_of(alloc, item)?)?;
    }
    Ok(all)
}

#[cycle(value_of)]
fn to_members(alloc: Global, list: &MemberList) -> Result<Map<String, Value>, OutOfMemory>
    requires { FieldsInRange (fields_of list.now) }
    ensures { IfOk result (λ made. members_view made.entries ≡ data_members (fields_of list.now)) }
{
    let mut map = Map::new(alloc);
    for member in &list.all {
        let name = String::from_str(alloc, member.name.as_str())?;
        let value = value_of(alloc, &member.value)?;
        map.insert(name, value)?;
    }
    Ok(map)
}
