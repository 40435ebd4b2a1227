ghost use Rattle.std.specs.Prelude.{◌≡◌, is_some};
ghost use Rattle.borrowed_json.specs.View.{view, items_view, members_view};
ghost use Rattle.base_types.specs.Values.{of_items, of_members};
ghost use Rattle.audit_event.specs.Numbers.{is_body, has_tree, members_have_trees, has_whole_numbers};

use borrowed_json::{JsonValue, Map};

// Whether each number is whole and of 64 bits.
#[cycle(has_tree)]
fn has_tree(value: &JsonValue<'_>) -> bool
    ensures { result ≡ has_tree (view value.now) }
{
    match value {
        JsonValue::Number(number) => !number.is_f64(),
        JsonValue::Array(list) => items_have_trees(list),
        JsonValue::Object(map) => all_have_trees(map),
        _ => true,
    }
}

#[cycle(has_tree)]
fn items_have_trees(list: &Vec<JsonValue<'_>>) -> bool
    ensures { result ≡ is_some (of_items (items_view list.now.items)) }
{
    for item in list {
        if !has_tree(item) {
            return false;
        }
    }
    true
}

#[cycle(has_tree)]
fn all_have_trees(map: &Map<'_>) -> bool
    ensures { result ≡ is_some (of_members (members_view map.now.entries)) }
{
    for (_, member) in map.iter() {
        if !has_tree(member) {
            return false;
        }
    }
    true
}

fn is_body(name: &str) -> bool
    ensures { result ≡ is_body name.now }
{
    name == "requestObject" || name == "responseObject"
}

fn members_have_trees(map: &Map<'_>) -> bool
    ensures { result ≡ members_have_trees (members_view map.now.entries) }
{
    for (name, member) in map.iter() {
        if !is_body(name) && !has_tree(member) {
            return false;
        }
    }
    true
}

/// Whether each number of an event outside its bodies is whole and of 64 bits.
pub(crate) fn has_whole_numbers(value: &JsonValue<'_>) -> bool
    ensures { result ≡ has_whole_numbers (view value.now) }
{
    match value {
        JsonValue::Object(map) => members_have_trees(map),
        _ => true,
    }
}
