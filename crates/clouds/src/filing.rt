ghost use Rattle.std.specs.Prelude.{◌↔◌, [], ◌∷◌, ◌++◌, IsTrue, IfOk, OnOk, Any, List, map};
ghost use Rattle.std.specs.List.Sorted.{IsNonDecreasing, IsPermutation};
ghost use Rattle.clouds.specs.declared.span.OpaqueSpan.{OpaqueSpan};
ghost use Rattle.clouds.specs.Filed.{AreFiled, IsNoneFiled};
ghost use Rattle.clouds.specs.FirstClouded.{IsFirstUntilNext};
ghost use Rattle.clouds.specs.FirstPlace.{IsFirstPlace};
ghost use Rattle.clouds.specs.Hiding.{HidesKey, ReachesKey};

use crate::places::{last_before_next, latest};
use crate::span::OpaqueSpan;
use crate::unrecorded::{Unrecorded, add_span, first_reached, lesser_place};
use crate::wide::Wide;
use base_types::{CoverName, ObjectKey, OutOfMemory, Text, exact_key};
use std::alloc::Global;
use std::collections::BTreeMap;

/// The unrecorded writes that one key names, by this key, and the others by what their covers take.
#[derive(Drop)]
pub struct Filed {
    pub named: BTreeMap<ObjectKey, Unrecorded>,
    pub wide: Wide,
}

impl Filed {
    /// Whether no span is filed: then nothing is hidden.
    pub fn is_empty(&self) -> bool
        ensures { IsTrue result ↔ IsNoneFiled self.now.named self.now.wide }
    {
        self.named.is_empty() && self.wide.spans.is_empty()
    }

    // The least place from `low` to `high` at which some span of the key has begun that reaches the revision.
    fn first_reached(&self, key: &ObjectKey, revision: u64, low: u64, high: u64) -> Option<u64>
        ensures { (spans : List OpaqueSpan) → AreFiled self.now.named self.now.wide spans
            → IsFirstPlace (λ place. Any (ReachesKey key.now place revision) spans) low
            high result }
    {
        lesser_place(
            first_reached(self.named.get(key), key, revision, low, high),
            self.wide.first_reached(key, revision, low, high),
        )
    }

    /// The least place from `low` to `high` at which some span hides the key, which has these revisions. It is
    /// looked for up to the next revision alone: up to there what reaches the latest one hides the key.
    pub fn first_hidden(
        &self,
        key: &ObjectKey,
        revisions: &[u64],
        low: u64,
        high: u64,
    ) -> Option<u64>
        requires { IsNonDecreasing revisions.now }
        ensures { (spans : List OpaqueSpan) → AreFiled self.now.named self.now.wide spans
            → IsFirstUntilNext (λ place. Any (HidesKey revisions.now key.now place) spans)
            revisions.now low high result }
    {
        let last = last_before_next(revisions, low).min(high);
        self.first_reached(key, latest(revisions, low), low, last)
    }
}

// What spans are sorted by, so that those of one cover come together, by their lows.
#[derive(PartialEq, Eq, PartialOrd, Ord, Drop)]
struct Turn<'a> {
    resource: &'a Text,
    group: &'a Text,
    namespace: Option<&'a Text>,
    name: TurnName<'a>,
    creates: bool,
    low: u64,
}

#[derive(PartialEq, Eq, PartialOrd, Ord, Drop)]
enum TurnName<'a> {
    Exact(&'a Text),
    Prefix(&'a Text),
    Any,
}

fn turn_of(span: &OpaqueSpan) -> Turn<'_> {
    let cover = &span.cover;
    Turn {
        resource: &cover.resource,
        group: &cover.group,
        namespace: cover.namespace.as_ref(),
        name: match &cover.name {
            CoverName::Exact(name) => TurnName::Exact(name),
            CoverName::Prefix(front) => TurnName::Prefix(front),
            CoverName::Any => TurnName::Any,
        },
        creates: cover.creates,
        low: span.low,
    }
}

// The order serves speed alone.
fn by_cover(alloc: Global, spans: &[OpaqueSpan]) -> Result<Vec<&OpaqueSpan>, OutOfMemory>
    ensures { IfOk result (λ order. IsPermutation spans.now (map (λ span. span.now) order.items)) }
{
    let mut order: Vec<&OpaqueSpan> = spans.iter().collect(alloc)?;
    order.sort_by_key(|span| turn_of(span))?;
    Ok(order)
}

fn file(alloc: Global, filed: &mut Filed, span: &OpaqueSpan) -> Result<(), OutOfMemory>
    ensures { OnOk result ((spans : List OpaqueSpan) → AreFiled filed.old.named filed.old.wide spans
        → AreFiled filed.new.named filed.new.wide (spans ++ span.now ∷ [])) }
{
    if let Some(key) = exact_key(alloc, &span.cover)? {
        add_span(alloc, &mut filed.named, key, span)?;
        return Ok(());
    }
    filed.wide.add(alloc, span)?;
    Ok(())
}

fn file_each(alloc: Global, spans: &[&OpaqueSpan]) -> Result<Filed, OutOfMemory>
    ensures { IfOk result (λ filed. AreFiled filed.named filed.wide
        (map (λ span. span.now) spans.now)) }
{
    let mut filed = Filed {
        named: BTreeMap::new(alloc),
        wide: Wide::new(alloc),
    };
    for span in spans {
        file(alloc, &mut filed, span)?;
    }
    Ok(filed)
}

/// Files all spans.
pub fn all_filed(alloc: Global, spans: &[OpaqueSpan]) -> Result<Filed, OutOfMemory>
    ensures { IfOk result (λ filed. AreFiled filed.named filed.wide spans.now) }
{
    let order = by_cover(alloc, spans)?;
    let filed = file_each(alloc, &order)?;
    Ok(filed)
}
