//! What stands under a number that was guessed. A guess needs no premise: where the number isn't there, or has another
//! level, more is looked up by hashes. So the functions that only guess have no clause.

ghost use Rattle.std.specs.Prelude.{◌≡◌, Some, slice_get, IfSome, IsTrue};
ghost use Rattle.packed_tree.specs.Showing.{meaning_of};
ghost use Rattle.node_pool.specs.Flat.{Flat};
ghost use Rattle.node_pool.specs.Leaves.{leaf_of};

use crate::form::{Form, Level};
use base_types::Text;
use hash_seed::Seeded;
use indexmap::IndexSet;
use packed_tree::Shown;

/// The guessed number, where it has this level.
pub fn standing(levels: &IndexSet<Level, Seeded>, near: Option<u32>, level: &Level) -> Option<u32>
    ensures { IfSome result (λ n. slice_get levels.now.keys n ≡ Some level.now) }
{
    let number = near?;
    let there = levels.get_index(number as usize)?;
    if is_level(there, level) {
        Some(number)
    } else {
        None
    }
}

fn is_level(there: &Level, level: &Level) -> bool
    ensures { IsTrue result → there.now ≡ level.now }
{
    *there == *level
}

/// The guessed number, where it has the level of this value, and nothing is within the value.
pub fn leaf(levels: &IndexSet<Level, Seeded>, near: Option<u32>, shown: &Shown<'_>) -> Option<u32>
    ensures { IfSome result (λ n. (p : Flat) × (slice_get levels.now.keys n ≡ Some p) × (leaf_of
        (meaning_of shown.now) ≡ Some p)) }
{
    let number = near?;
    let there = levels.get_index(number as usize)?;
    if is_leaf(there, shown) {
        Some(number)
    } else {
        None
    }
}

// Whether the value has nothing within it, and this level. A text is compared where it stands.
fn is_leaf(level: &Level, shown: &Shown<'_>) -> bool
    ensures { IsTrue result → leaf_of (meaning_of shown.now) ≡ Some level.now }
{
    match (&level.form, shown) {
        (Form::Null, Shown::Null) => true,
        (Form::Flag(a), Shown::Flag(b)) => *a == *b,
        (Form::Whole(a), Shown::Whole(b)) => *a == *b,
        (Form::Words(a), Shown::Words(b)) => a.as_str() == *b,
        _ => false,
    }
}

/// A guess: the number of the guessed array's item at an index.
pub fn item(levels: &IndexSet<Level, Seeded>, near: Option<u32>, index: usize) -> Option<u32> {
    let there = levels.get_index(near? as usize)?;
    match &there.form {
        Form::Items(numbers) => numbers.get(index).copied(),
        _ => None,
    }
}

// The members of the guessed object.
fn members_at(levels: &IndexSet<Level, Seeded>, near: Option<u32>) -> Option<&Vec<(usize, u32)>> {
    let there = levels.get_index(near? as usize)?;
    match &there.form {
        Form::Members(numbers) => Some(numbers),
        _ => None,
    }
}

/// What the guessed object's members have for a name.
#[derive(Clone, Copy)]
pub struct Met {
    /// The member of that name: the number of the name, and that of its value.
    pub member: Option<(usize, u32)>,
    /// From where the next name, which is greater, is looked for.
    pub next: usize,
}

/// What the guessed object has for a name. Its members are in the order of their names, so that names that are asked
/// for in their order are found in one walk.
pub fn meet(
    names: &IndexSet<Text, Seeded>,
    levels: &IndexSet<Level, Seeded>,
    near: Option<u32>,
    from: usize,
    name: &str,
) -> Met
    ensures { IfSome result.member (λ m. slice_get names.now.keys m.0 ≡ Some name.now) }
{
    let Some(members) = members_at(levels, near) else {
        return Met {
            member: None,
            next: from,
        };
    };
    for at in from..members.len() {
        let (number, value) = members[at];
        if is_name(names, number, name) {
            return Met {
                member: Some((number, value)),
                next: at + 1,
            };
        }
        if !is_before(names, number, name) {
            return Met {
                member: None,
                next: at,
            };
        }
    }
    Met {
        member: None,
        next: members.len(),
    }
}

// Whether a number's name is this one.
fn is_name(names: &IndexSet<Text, Seeded>, number: usize, name: &str) -> bool
    ensures { IsTrue result → slice_get names.now.keys number ≡ Some name.now }
{
    match names.get_index(number) {
        Some(there) => there.as_str() == name,
        None => false,
    }
}

fn is_before(names: &IndexSet<Text, Seeded>, number: usize, name: &str) -> bool {
    match names.get_index(number) {
        Some(there) => there.as_str() < name,
        None => false,
    }
}
