ghost use Rattle.std.specs.Prelude.{◌≡◌, ◌≤◌, ◌↔◌, take, IsTrue, IfOk, OnOk, Any};
ghost use Rattle.std.specs.BTreeMap.{IsEmpty};
ghost use Rattle.std.specs.Option.{option_copied};
ghost use Rattle.clouds.specs.FirstPlace.{IsFirstPlace};
ghost use Rattle.clouds.specs.Hiding.{ReachesKey};
ghost use Rattle.clouds.specs.Items.{AddsAt, items_of};
ghost use Rattle.clouds.specs.Upto.{AreUpto};
ghost use Rattle.clouds.specs.Wide.{AddsWide, AnyIn, AnyOf, AnyWide, Extends, IsNumbered, scope_order};
ghost use Rattle.clouds.specs.Wide.{any_scope, front_of, lengths_of, number_of, own_scope, spans_by, spans_of_front};

use crate::lengths::Lengths;
use crate::numbers::{Numbers, give_number, number_at};
use crate::span::OpaqueSpan;
use crate::unrecorded::{Unrecorded, add_span, first_reached, lesser_place, reach};
use base_types::{Cover, CoverName, ObjectKey, OutOfMemory, Text};
use std::alloc::Global;
use std::collections::BTreeMap;

/// The numbers of what a cover takes but for the names. Without a namespace it takes any.
#[derive(Clone, Copy, PartialEq, Eq, PartialOrd, Ord)]
pub struct Scope {
    pub group: u64,
    pub resource: u64,
    pub namespace: Option<u64>,
}

/// What a span is filed under: its cover's scope, and the number of what the names begin with.
#[derive(Clone, Copy, PartialEq, Eq, PartialOrd, Ord)]
pub struct Folder {
    pub scope: Scope,
    pub front: u64,
}

/// The unrecorded writes that no key names, by what their covers take. A look-up asks for each front of the
/// key's name that is as long as some front of the scope, so it costs the same however many covers there are.
#[derive(Drop)]
pub struct Wide {
    pub numbers: Numbers,
    /// How long the fronts of a scope are.
    pub lengths: BTreeMap<Scope, Lengths>,
    pub spans: BTreeMap<Folder, Unrecorded>,
}

// What all names begin with that the cover takes.
fn front_of_cover(cover: &Cover) -> &[u8]
    ensures { result.now ≡ front_of cover.now.name }
{
    match &cover.name {
        CoverName::Exact(name) => name.as_bytes(),
        CoverName::Prefix(front) => front.as_bytes(),
        CoverName::Any => &[],
    }
}

// The first bytes of the name, all of it if there are no more.
fn front_of_name(name: &Text, count: usize) -> &[u8]
    ensures { result.now ≡ take count name.now }
{
    let bytes = name.as_bytes();
    if count >= bytes.len() {
        return bytes;
    }
    &bytes[..count]
}

fn give_namespace(
    alloc: Global,
    numbers: &mut Numbers,
    namespace: Option<&Text>,
) -> Result<Option<u64>, OutOfMemory>
    ensures number { IfOk result (IsNumbered numbers.new (option_copied namespace.entry)) }
    ensures kept { OnOk result (Extends numbers.old numbers.new) }
{
    match namespace {
        Some(namespace) => Ok(Some(give_number(alloc, numbers, namespace.as_bytes())?)),
        None => Ok(None),
    }
}

fn give_scope(alloc: Global, numbers: &mut Numbers, cover: &Cover) -> Result<Scope, OutOfMemory>
    ensures group { IfOk result (λ scope. number_of numbers.new cover.now.group
        ≡ Some scope.group) }
    ensures resource { IfOk result (λ scope. number_of numbers.new cover.now.resource
        ≡ Some scope.resource) }
    ensures namespace { IfOk result (λ scope. IsNumbered numbers.new cover.now.namespace
        scope.namespace) }
    ensures kept { OnOk result (Extends numbers.old numbers.new) }
{
    let group = give_number(alloc, numbers, cover.group.as_bytes())?;
    let resource = give_number(alloc, numbers, cover.resource.as_bytes())?;
    let namespace = give_namespace(alloc, numbers, cover.namespace.as_ref())?;
    Ok(Scope {
        group,
        resource,
        namespace,
    })
}

fn add_length(
    alloc: Global,
    lengths: &mut BTreeMap<Scope, Lengths>,
    scope: Scope,
    length: usize,
) -> Result<(), OutOfMemory>
    ensures { OnOk result (AddsAt scope_order lengths.old lengths.new scope length) }
{
    match lengths.get_mut(&scope) {
        Some(held) => {
            held.add(length)?;
            return Ok(());
        }
        None => {
            let _none = lengths.insert(scope, Lengths::of(alloc, length)?)?;
        }
    }
    Ok(())
}

impl Wide {
    pub fn new(alloc: Global) -> Wide
        ensures { IsEmpty result.spans }
    {
        Wide {
            numbers: BTreeMap::new(alloc),
            lengths: BTreeMap::new(alloc),
            spans: BTreeMap::new(alloc),
        }
    }

    pub fn add(&mut self, alloc: Global, span: &OpaqueSpan) -> Result<(), OutOfMemory>
        ensures { OnOk result (AddsWide self.old self.new span.now) }
    {
        let scope = give_scope(alloc, &mut self.numbers, &span.cover)?;
        let text = front_of_cover(&span.cover);
        let front = give_number(alloc, &mut self.numbers, text)?;
        add_length(alloc, &mut self.lengths, scope, text.len())?;
        add_span(alloc, &mut self.spans, Folder { scope, front }, span)?;
        Ok(())
    }

    // Of the covers that name the key's namespace.
    fn own_scope(&self, key: &ObjectKey) -> Option<Scope>
        ensures { result ≡ own_scope self.now.numbers key.now }
    {
        Some(Scope {
            group: number_at(&self.numbers, key.group.as_bytes())?,
            resource: number_at(&self.numbers, key.resource.as_bytes())?,
            namespace: Some(number_at(&self.numbers, key.namespace.as_bytes())?),
        })
    }

    // Of the covers that name no namespace.
    fn any_scope(&self, key: &ObjectKey) -> Option<Scope>
        ensures { result ≡ any_scope self.now.numbers key.now }
    {
        Some(Scope {
            group: number_at(&self.numbers, key.group.as_bytes())?,
            resource: number_at(&self.numbers, key.resource.as_bytes())?,
            namespace: None,
        })
    }

    fn lengths_upto(&self, scope: Scope, most: usize) -> &[usize]
        ensures { AreUpto (lengths_of self.now scope) most result.now }
    {
        match self.lengths.get(&scope) {
            Some(lengths) => lengths.upto(most),
            None => &[],
        }
    }

    fn spans_of_front(&self, scope: Scope, front: &[u8]) -> Option<&Unrecorded>
        ensures { items_of (option_copied result) ≡ spans_of_front self.now scope front.now }
    {
        let front = number_at(&self.numbers, front)?;
        self.spans.get(&Folder { scope, front })
    }

    fn front_reaches(
        &self,
        scope: Scope,
        key: &ObjectKey,
        count: usize,
        place: u64,
        revision: u64,
    ) -> bool
        ensures { IsTrue result ↔ Any (ReachesKey key.now place revision)
            (spans_by self.now scope key.now count) }
    {
        let front = front_of_name(&key.name, count);
        reach(self.spans_of_front(scope, front), key, place, revision)
    }

    fn some_front_reaches(
        &self,
        scope: Scope,
        counts: &[usize],
        key: &ObjectKey,
        place: u64,
        revision: u64,
    ) -> bool
        ensures { IsTrue result ↔ AnyOf self.now scope key.now counts.now
            (ReachesKey key.now place revision) }
    {
        counts.iter().any(|count| self.front_reaches(scope, key, *count, place, revision))
    }

    fn scope_reaches(
        &self,
        scope: Option<Scope>,
        key: &ObjectKey,
        place: u64,
        revision: u64,
    ) -> bool
        ensures { IsTrue result ↔ AnyIn self.now key.now scope (ReachesKey key.now place revision) }
    {
        let Some(scope) = scope else {
            return false;
        };
        let counts = self.lengths_upto(scope, key.name.len());
        self.some_front_reaches(scope, counts, key, place, revision)
    }

    /// Whether some span of the key begins below the place and reaches the revision.
    pub fn reach(&self, key: &ObjectKey, place: u64, revision: u64) -> bool
        ensures { IsTrue result ↔ AnyWide self.now key.now (ReachesKey key.now place revision) }
    {
        self.scope_reaches(self.own_scope(key), key, place, revision)
            || self.scope_reaches(self.any_scope(key), key, place, revision)
    }

    // Of the spans whose fronts have these lengths.
    fn first_of_fronts(
        &self,
        scope: Scope,
        counts: &[usize],
        key: &ObjectKey,
        revision: u64,
        low: u64,
        high: u64,
    ) -> Option<u64>
        ensures { IsFirstPlace (λ place. AnyOf self.now scope key.now counts.now
            (ReachesKey key.now place revision)) low high result }
    {
        let mut first = None;
        for count in counts {
            let spans = self.spans_of_front(scope, front_of_name(&key.name, *count));
            first = lesser_place(first, first_reached(spans, key, revision, low, high));
        }
        first
    }

    fn first_in_scope(
        &self,
        scope: Option<Scope>,
        key: &ObjectKey,
        revision: u64,
        low: u64,
        high: u64,
    ) -> Option<u64>
        ensures { IsFirstPlace (λ place. AnyIn self.now key.now scope
            (ReachesKey key.now place revision)) low high result }
    {
        let scope = scope?;
        let counts = self.lengths_upto(scope, key.name.len());
        self.first_of_fronts(scope, counts, key, revision, low, high)
    }

    /// The least place from `low` to `high` at which some span of the key has begun that reaches the revision.
    pub fn first_reached(&self, key: &ObjectKey, revision: u64, low: u64, high: u64) -> Option<u64>
        ensures { IsFirstPlace (λ place. AnyWide self.now key.now
            (ReachesKey key.now place revision)) low high result }
    {
        lesser_place(
            self.first_in_scope(self.own_scope(key), key, revision, low, high),
            self.first_in_scope(self.any_scope(key), key, revision, low, high),
        )
    }
}
