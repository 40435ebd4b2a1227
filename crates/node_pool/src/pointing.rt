ghost use Rattle.std.specs.Prelude.{◌≡◌, ◌<◌, length, map, slice_get, option_and_then, IfSome};
ghost use Rattle.std.specs.List.{AllByRecursion};
ghost use Rattle.std.specs.List.Sorted.{IsBinarySearchResult, IsSearchInRange, IsStrictlySortedBy};
ghost use Rattle.std.specs.Ordering.{nat_cmp};
ghost use Rattle.std.specs.Cmp.Lexicographic.{slice_cmp};
ghost use Rattle.base_types.specs.Meaning.{fields_of};
ghost use Rattle.base_types.specs.Parts.{lookup, member_of};
ghost use Rattle.base_types.specs.Pointers.{child_of, index_of, pointed as pointed_tree};
ghost use Rattle.node_pool.specs.Within.{field_at, name_of, name_at, IsFieldWithin};

use crate::form::Form;
use crate::store::Store;
use base_types::Text;
use base_types::json::{Pointer, read_index};
use std::cmp::Ordering;

/// The number of what a pointer identifies within the tree of a number (RFC 6901 section 4).
pub fn pointed(store: &Store, number: u32, pointer: &Pointer) -> Option<u32>
    requires { number < length store.now.trees }
    ensures found { option_and_then (slice_get store.now.trees) result ≡ option_and_then
        (pointed_tree pointer.now) (slice_get store.now.trees number) }
    ensures within { IfSome result (λ n. n < length store.now.trees) }
{
    let mut here = number;
    for token in pointer.as_slice() {
        here = child(store, here, token)?;
    }
    Some(here)
}

/// The number of the value of an object's member.
pub fn member_of(store: &Store, number: u32, name: &str) -> Option<u32>
    requires { number < length store.now.trees }
    ensures found { option_and_then (slice_get store.now.trees) result
        ≡ option_and_then (member_of name.now)
        (slice_get store.now.trees number) }
    ensures within { IfSome result (λ n. n < length store.now.trees) }
{
    match &store.level(number)?.form {
        Form::Members(numbers) => member(store, numbers, name),
        _ => None,
    }
}

// The number of what one token refers to.
fn child(store: &Store, number: u32, token: &Text) -> Option<u32>
    requires { number < length store.now.trees }
    ensures found { option_and_then (slice_get store.now.trees) result
        ≡ option_and_then (child_of token.now)
        (slice_get store.now.trees number) }
    ensures within { IfSome result (λ n. n < length store.now.trees) }
{
    match &store.level(number)?.form {
        Form::Items(numbers) => item(numbers, token.as_str()),
        Form::Members(numbers) => member(store, numbers, token.as_str()),
        _ => None,
    }
}

// The number of the item at an index, where the token is one.
fn item(numbers: &Vec<u32>, token: &str) -> Option<u32>
    ensures { result ≡ option_and_then (slice_get numbers.now.items) (index_of token.now) }
{
    match read_index(token) {
        Some(index) => numbers.get(index).copied(),
        None => None,
    }
}

// The number of the value of the member of a name.
fn member(store: &Store, numbers: &Vec<(usize, u32)>, name: &str) -> Option<u32>
    requires within { AllByRecursion (IsFieldWithin store.now.names (length store.now.trees))
        numbers.now.items }
    requires sorted { IsStrictlySortedBy (slice_cmp nat_cmp)
        (map (name_of store.now.names) numbers.now.items) }
    ensures found { option_and_then (slice_get store.now.trees) result ≡ lookup name.now
        (fields_of (map (field_at store.now.names store.now.trees) numbers.now.items)) }
    ensures within { IfSome result (λ n. n < length store.now.trees) }
{
    match find(store, numbers, name) {
        Ok(at) => Some(numbers[at].1),
        Err(_) => None,
    }
}

// The position of the member of a name, or else the position at which it would stand.
fn find(store: &Store, numbers: &Vec<(usize, u32)>, name: &str) -> Result<usize, usize>
    ensures found { IsBinarySearchResult
        (λ m. slice_cmp nat_cmp (name_of store.now.names m) name.now)
        numbers.now.items result }
    ensures within { IsSearchInRange result (length numbers.now.items) }
{
    numbers.binary_search_by(
        |member: &(usize, u32)| -> Ordering
            ensures { result
                ≡ slice_cmp nat_cmp (name_at store.entry.now.names member.now.0) name.entry.now }
        { store.name(member.0).cmp(name) },
    )
}
