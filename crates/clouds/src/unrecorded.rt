ghost use Rattle.std.specs.Prelude.{◌≡◌, ◌≤◌, ◌↔◌, [], ◌∷◌, ◌++◌, IsTrue, IfOk, OnOk, Any};
ghost use Rattle.clouds.specs.FirstPlace.{IsFirstPlace, lesser_place};
ghost use Rattle.clouds.specs.Items.{AddsAt, items_of};
ghost use Rattle.std.specs.Option.{option_copied};
ghost use Rattle.clouds.specs.Hiding.{ReachesKey};

use crate::cover::CoverSpans;
use crate::span::OpaqueSpan;
use base_types::{ObjectKey, OutOfMemory};
use std::alloc::Global;
use std::collections::BTreeMap;
use std::marker::Model;

/// Unrecorded writes, those of one cover together where they come one after another in order.
#[derive(Drop)]
pub struct Unrecorded {
    parts: Vec<CoverSpans>,
}

impl Model for Unrecorded {
    ghost use Rattle.std.specs.Prelude.{List};
    ghost use Rattle.std.specs.List.{flat_map};
    ghost use Rattle.clouds.specs.declared.span.OpaqueSpan.{OpaqueSpan};

    ghost Value = { List OpaqueSpan };

    ghost view = { λ u. flat_map (λ part. part) u.parts.items };
}

impl Unrecorded {
    pub fn of(alloc: Global, span: &OpaqueSpan) -> Result<Unrecorded, OutOfMemory>
        ensures { IfOk result (λ made. made ≡ span.now ∷ []) }
    {
        let mut parts = Vec::new(alloc);
        parts.push(CoverSpans::of(alloc, span)?)?;
        Ok(Unrecorded { parts })
    }

    pub fn add(&mut self, alloc: Global, span: &OpaqueSpan) -> Result<(), OutOfMemory>
        ensures { OnOk result (self.new ≡ self.old ++ span.now ∷ []) }
    {
        let count = self.parts.len();
        if count > 0 {
            let last = &mut self.parts[count - 1];
            if last.take(span)? {
                return Ok(());
            }
        }
        self.parts.push(CoverSpans::of(alloc, span)?)?;
        Ok(())
    }

    /// Whether some span of the key begins below the place and reaches the revision.
    pub fn reach(&self, key: &ObjectKey, place: u64, revision: u64) -> bool
        ensures { IsTrue result ↔ Any (ReachesKey key.now place revision) self.now }
    {
        some_reaches(&self.parts, key, place, revision)
    }

    /// The least place from `low` to `high` at which some span of the key has begun that reaches the revision.
    pub fn first_reached(&self, key: &ObjectKey, revision: u64, low: u64, high: u64) -> Option<u64>
        ensures { IsFirstPlace (λ place. Any (ReachesKey key.now place revision) self.now) low
            high result }
    {
        let mut first = None;
        for part in &self.parts {
            first = lesser_place(first, part.first_reached(key, revision, low, high));
        }
        first
    }
}

/// Files a span under a key.
pub fn add_span<K: Ord + Drop>(
    alloc: Global,
    spans: &mut BTreeMap<K, Unrecorded>,
    key: K,
    span: &OpaqueSpan,
) -> Result<(), OutOfMemory>
    ensures { OnOk result (AddsAt K.cmp spans.old spans.new key span.now) }
{
    match spans.get_mut(&key) {
        Some(held) => {
            held.add(alloc, span)?;
            return Ok(());
        }
        None => {
            let _none = spans.insert(key, Unrecorded::of(alloc, span)?)?;
        }
    }
    Ok(())
}

// Whether that holds of a span of some part.
fn some_reaches(parts: &[CoverSpans], key: &ObjectKey, place: u64, revision: u64) -> bool
    ensures { IsTrue result ↔ Any (λ part. Any (ReachesKey key.now place revision) part) parts.now }
{
    parts.iter().any(|part| part.reach(key, place, revision))
}

/// Whether some span of the key begins below the place and reaches the revision, where there are any.
pub fn reach(spans: Option<&Unrecorded>, key: &ObjectKey, place: u64, revision: u64) -> bool
    ensures { IsTrue result ↔ Any (ReachesKey key.now place revision)
        (items_of (option_copied spans.entry)) }
{
    match spans {
        Some(spans) => spans.reach(key, place, revision),
        None => false,
    }
}

/// The least place from `low` to `high` at which some span of the key has begun that reaches the
/// revision, where there are any.
pub fn first_reached(
    spans: Option<&Unrecorded>,
    key: &ObjectKey,
    revision: u64,
    low: u64,
    high: u64,
) -> Option<u64>
    ensures { IsFirstPlace (λ place. Any (ReachesKey key.now place revision)
        (items_of (option_copied spans.entry))) low high result }
{
    match spans {
        Some(spans) => spans.first_reached(key, revision, low, high),
        None => None,
    }
}

/// The lesser of two places, where there are any.
pub fn lesser_place(a: Option<u64>, b: Option<u64>) -> Option<u64>
    ensures { result ≡ lesser_place a b }
{
    match (a, b) {
        (Some(a), Some(b)) => Some(a.min(b)),
        (Some(a), None) => Some(a),
        (None, b) => b,
    }
}
