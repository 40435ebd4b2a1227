ghost use Rattle.std.specs.Prelude.{◌≡◌, ◌≢◌, ◌≤◌, ◌↔◌, length, IfNone, IfOk, IfSome, IsTrue, AllPairs, Contains};
ghost use Rattle.std.specs.Ordering.{is_lt};
ghost use Rattle.base_types.specs.declared.kubernetes.key.ObjectKey.{ObjectKey as Key};
ghost use Rattle.clouds.specs.Kept.{key_order};
ghost use Rattle.object_past.specs.Among.{keys_at, is_one_of, AreBelow, IsPlaceOf};
ghost use Rattle.object_past.specs.Scopes.{AreInOrder};

use base_types::{ObjectKey, OutOfMemory, same_key};
use std::alloc::Global;

// Whether the key stands in front of the other.
fn is_below(key: &ObjectKey, other: &ObjectKey) -> bool
    ensures { result ≡ is_lt (key_order key.now other.now) }
{
    key < other
}

// Whether each key stands in front of the next one.
fn are_rising(keys: &[&ObjectKey]) -> bool
    ensures { IsTrue result ↔ AreInOrder (keys_at keys.now) }
{
    keys.is_sorted_by(|key, next| is_below(*key, *next))
}

/// The keys in order; None where two of them are equal.
pub fn keys_in_order(mut keys: Vec<&ObjectKey>) -> Option<Vec<&ObjectKey>>
    ensures order { IfSome result (λ sorted. AreInOrder (keys_at sorted.items)) }
    ensures exact { IfSome result (λ sorted. (key : Key) → Contains (keys_at sorted.items) key
        ↔ Contains (keys_at keys.entry.items) key) }
    ensures distinct { IfSome result
        (λ sorted. AllPairs (λ a b. a ≢ b) (keys_at keys.entry.items)) }
    ensures none { IfNone result (AllPairs (λ a b. a ≢ b) (keys_at keys.entry.items) → ⊥) }
{
    keys.sort_unstable();
    if !are_rising(&keys) {
        return None;
    }
    Some(keys)
}

// The place of the first key that isn't below this one, those in front of `from` being below it.
fn place_of(keys: &[&ObjectKey], from: usize, key: &ObjectKey) -> usize
    requires within { from ≤ length keys.now }
    requires below { AreBelow (keys_at keys.now) key.now from }
    ensures { IsPlaceOf (keys_at keys.now) key.now result }
{
    for place in from..keys.len() {
        if !is_below(keys[place], key) {
            return place;
        }
    }
    keys.len()
}

// Whether the key is one of these, `place` being that of the first key that isn't below it.
fn stands_at(keys: &[&ObjectKey], place: usize, key: &ObjectKey) -> bool
    requires order { AreInOrder (keys_at keys.now) }
    requires place { IsPlaceOf (keys_at keys.now) key.now place }
    ensures { result ≡ is_one_of (keys_at keys.now) key.now }
{
    match keys.get(place) {
        Some(other) => same_key(key, *other),
        None => false,
    }
}

/// The keys that aren't among the shown ones, by one walk over both, which are in order.
pub fn keys_without<'a>(
    alloc: Global,
    keys: &'a [ObjectKey],
    shown: &[&ObjectKey],
) -> Result<Vec<&'a ObjectKey>, OutOfMemory>
    requires keys { AreInOrder keys.now }
    requires shown { AreInOrder (keys_at shown.now) }
    ensures order { IfOk result (λ others. AreInOrder (keys_at others.items)) }
    ensures exact { IfOk result (λ others. (key : Key) → Contains (keys_at others.items) key
        ↔ (Contains keys.now key × (Contains (keys_at shown.now) key → ⊥))) }
{
    let mut others = Vec::new(alloc);
    let mut place = 0;
    for key in keys {
        place = place_of(shown, place, key);
        if !stands_at(shown, place, key) {
            others.push(key)?;
        }
    }
    Ok(others)
}
