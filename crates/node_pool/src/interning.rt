ghost use Rattle.std.specs.Prelude.{◌≡◌, ◌<◌, ◌≤◌, Some, Err, fold, length, map, slice_get, OnOk, IfOk};
ghost use Rattle.std.specs.List.{AllByRecursion};
ghost use Rattle.base_types.specs.Meaning.{kids_of, fields_of};
ghost use Rattle.base_types.specs.Names.{AreSorted};
ghost use Rattle.packed_tree.specs.Showing.{meaning_of};
ghost use Rattle.node_pool.specs.Kept.{Grows};
ghost use Rattle.node_pool.specs.Subtrees.{inside, inside_kids, inside_fields, interned, with_tree};
ghost use Rattle.node_pool.specs.Within.{tree_at, field_at, tree_of, IsWithin, IsFieldWithin};

use crate::fault::PoolFault;
use crate::form::{Form, Level};
use crate::growing::GrowingStore;
use base_types::Text;
use packed_tree::{PackedItems, PackedMembers, PackedRef, Shown};
use std::alloc::Global;

/// Puts a value and what is within it into the store, as far as each is new, and answers the value's number. After a
/// refusal a part of it may stand there. A number that is guessed is of a value that may be much like this one: what is
/// equal at equal places is found without a hash, and no text of it is copied.
#[cycle(add)]
pub fn add(
    alloc: Global,
    store: &mut GrowingStore,
    near: Option<u32>,
    value: &PackedRef<'_>,
) -> Result<u32, PoolFault>
    ensures grows { Grows store.old store.new }
    ensures added { OnOk result (store.new.trees ≡ interned store.old.trees value.now) }
    ensures number { IfOk result (λ n. slice_get store.new.trees n ≡ Some value.now) }
    ensures fits { OnOk result (length (interned store.old.trees value.now) ≤ store.old.limit) }
    ensures full { result ≡ Err PoolFault.Full
        → store.old.limit < length (interned store.old.trees value.now) }
{
    let shown = value.show();
    if let Some(number) = store.leaf_near(near, &shown) {
        return Ok(number);
    }
    let level = level_of(alloc, store, near, shown)?;
    store.place_near(near, level)
}

// The level of a value, once what is inside the value has its numbers.
#[cycle(add)]
fn level_of(
    alloc: Global,
    store: &mut GrowingStore,
    near: Option<u32>,
    shown: Shown<'_>,
) -> Result<Level, PoolFault>
    ensures grows { Grows store.old store.new }
    ensures added { OnOk result (store.new.trees ≡ fold with_tree store.old.trees (inside
        (meaning_of shown.entry))) }
    ensures within { IfOk result
        (λ level. IsWithin store.new.names (length store.new.trees) level) }
    ensures stands { IfOk result
        (λ level. tree_of store.new.names store.new.trees level ≡ meaning_of shown.entry) }
    ensures full { result ≡ Err PoolFault.Full
        → store.old.limit < length (fold with_tree store.old.trees
        (inside (meaning_of shown.entry))) }
{
    match shown {
        Shown::Null => Ok(Level { form: Form::Null }),
        Shown::Flag(flag) => Ok(Level {
            form: Form::Flag(flag),
        }),
        Shown::Whole(number) => Ok(Level {
            form: Form::Whole(number),
        }),
        Shown::Words(text) => Ok(Level {
            form: Form::Words(Text::from_str(alloc, text)?),
        }),
        Shown::Items(list) => Ok(Level {
            form: Form::Items(add_items(alloc, store, near, list)?),
        }),
        Shown::Members(list) => Ok(Level {
            form: Form::Members(add_members(alloc, store, near, list)?),
        }),
    }
}

// The numbers of the items, each of which is guessed to be that at its place.
#[cycle(add)]
fn add_items(
    alloc: Global,
    store: &mut GrowingStore,
    near: Option<u32>,
    list: PackedItems<'_>,
) -> Result<Vec<u32>, PoolFault>
    ensures grows { Grows store.old store.new }
    ensures added { OnOk result (store.new.trees ≡ fold with_tree store.old.trees (inside_kids
        (kids_of list.entry))) }
    ensures within { IfOk result (λ v. AllByRecursion (λ k. k < length store.new.trees) v.items) }
    ensures held { IfOk result (λ v. map (tree_at store.new.trees) v.items ≡ list.entry) }
    ensures full { result ≡ Err PoolFault.Full
        → store.old.limit < length (fold with_tree store.old.trees
        (inside_kids (kids_of list.entry))) }
{
    let mut numbers = Vec::new(alloc);
    let mut rest = list;
    'items: while let Some(item) = rest.next() {
        let guess = store.item_near(near, numbers.len());
        numbers.push(add(alloc, store, guess, &item)?)?;
    }
    numbers.shrink_to_fit();
    Ok(numbers)
}

// The numbers of the members' names and values, of which those of the same name are guessed.
#[cycle(add)]
fn add_members(
    alloc: Global,
    store: &mut GrowingStore,
    near: Option<u32>,
    list: PackedMembers<'_>,
) -> Result<Vec<(usize, u32)>, PoolFault>
    ensures grows { Grows store.old store.new }
    ensures added { OnOk result (store.new.trees ≡ fold with_tree store.old.trees (inside_fields
        (fields_of list.entry))) }
    ensures within { IfOk result
        (λ v. AllByRecursion (IsFieldWithin store.new.names (length store.new.trees))
        v.items) }
    ensures held { IfOk result
        (λ v. map (field_at store.new.names store.new.trees) v.items ≡ list.entry) }
    ensures sorted { AreSorted list.entry }
    ensures full { result ≡ Err PoolFault.Full
        → store.old.limit < length (fold with_tree store.old.trees
        (inside_fields (fields_of list.entry))) }
{
    let mut numbers = Vec::new(alloc);
    let mut from = 0;
    list.sorted();
    let mut rest = list;
    'members: while let Some((name, item)) = rest.next() {
        let named = store.number_near(alloc, near, from, name)?;
        let value = add(alloc, store, named.value, &item)?;
        numbers.push((named.name, value))?;
        from = named.next;
    }
    numbers.shrink_to_fit();
    Ok(numbers)
}
