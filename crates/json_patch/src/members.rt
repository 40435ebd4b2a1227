ghost use Rattle.std.specs.Prelude.{◌≡◌, ◌↔◌, ◌<◌, ◌≤◌, ◌+◌, ◌-◌, ◌++◌, ◌∷◌, [], length, get_or, insert, remove};
ghost use Rattle.std.specs.Prelude.{IfOk, IfErr, OnOk, IsTrue};
ghost use Rattle.std.specs.Ordering.{nat_cmp};
ghost use Rattle.std.specs.declared.cmp.Ordering.TheVariants.{Greater};
ghost use Rattle.std.specs.Cmp.Lexicographic.{slice_cmp};
ghost use Rattle.base_types.specs.Names.{AreSorted};
ghost use Rattle.base_types.specs.Search.{IsNamedAt, IsPlaceFor};
ghost use Rattle.json_patch.specs.Gaps.{first_name, IsGapIn, IsNarrowed, BeginUpTo};
ghost use Rattle.json_patch.specs.Joined.{joined, IsPlaceIn, number_of};

use crate::chunks::Place;
use crate::draft::{DraftMember, MemberChunk};
use base_types::OutOfMemory;
use std::alloc::Global;
use std::cmp::Ordering;

/// The most members of one chunk.
const MAX_MEMBERS: usize = 1_024;

/// The chunks among which a search still looks: the first of them, and the one behind the last.
#[derive(Clone, Copy)]
pub struct Span {
    pub low: usize,
    pub high: usize,
}

impl MemberChunk {
    fn of(alloc: Global, member: DraftMember) -> Result<MemberChunk, OutOfMemory>
        ensures { IfOk result (λ made. made ≡ member ∷ []) }
    {
        let mut all = Vec::new(alloc);
        all.push(member)?;
        Ok(MemberChunk { all })
    }

    /// How many members there are.
    pub fn len(&self) -> usize
        ensures { result ≡ length self.now }
    {
        self.all.len()
    }

    // Whether the first member stands behind a name.
    fn begins_behind(&self, name: &str) -> bool
        ensures some { 0 < length self.now }
        ensures order { IsTrue result ↔ (slice_cmp nat_cmp (first_name self.now)
            name.now ≡ Greater) }
    {
        self.all[0].name.as_str().cmp(name).is_gt()
    }

    // The position of the member of a name, or else the position at which it would stand.
    fn find(&self, name: &str) -> Result<usize, usize>
        requires { AreSorted self.now }
        ensures found { IfOk result (IsNamedAt name.now self.now) }
        ensures place { IfErr result (IsPlaceFor name.now self.now) }
    {
        self.all.binary_search_by(
            |member: &DraftMember| -> Ordering
                ensures { result ≡ slice_cmp nat_cmp member.now.0 name.entry.now }
            { member.name.as_str().cmp(name) },
        )
    }

    fn push(&mut self, member: DraftMember) -> Result<(), OutOfMemory>
        ensures { OnOk result (self.new ≡ self.old ++ member ∷ []) }
    {
        self.all.push(member)?;
        Ok(())
    }

    fn insert(&mut self, at: usize, member: DraftMember) -> Result<(), OutOfMemory>
        requires { at ≤ length self.old }
        ensures { OnOk result (self.new ≡ insert self.old at member) }
    {
        self.all.insert(at, member)?;
        Ok(())
    }

    fn remove(&mut self, at: usize) -> DraftMember
        requires within { at < length self.old }
        requires more { 1 < length self.old }
        ensures value { result ≡ get_or self.old at result }
        ensures members { self.new ≡ remove self.old at }
    {
        self.all.remove(at)
    }

    // Takes the members out that stand behind the first ones.
    fn cut(&mut self, at: usize) -> Result<MemberChunk, OutOfMemory>
        requires some { 0 < at }
        requires more { at < length self.old }
        ensures { IfOk result (λ made. self.new ++ made ≡ self.old) }
    {
        let all = self.all.split_off(at)?;
        Ok(MemberChunk { all })
    }
}

/// The place of the member of a name, or else the place at which it would stand.
pub fn find(parts: &[MemberChunk], name: &str) -> Result<Place, Place>
    requires { AreSorted (joined parts.now) }
    ensures place { IfOk result (IsPlaceIn parts.now) }
    ensures named { IfOk result (λ place. IsNamedAt name.now (joined parts.now)
        (number_of parts.now place)) }
    ensures gap { IfErr result (IsGapIn parts.now) }
    ensures absent { IfErr result (λ place. IsPlaceFor name.now (joined parts.now)
        (number_of parts.now place)) }
{
    let count = begun(parts, name);
    if count == 0 {
        return Err(Place { part: 0, offset: 0 });
    }
    let part = count - 1;
    match parts[part].find(name) {
        Ok(offset) => Ok(Place { part, offset }),
        Err(offset) => Err(Place { part, offset }),
    }
}

// How many chunks begin at a name or before it.
fn begun(parts: &[MemberChunk], name: &str) -> usize
    requires { AreSorted (joined parts.now) }
    ensures { BeginUpTo name.now parts.now result }
{
    let mut rest = Span {
        low: 0,
        high: parts.len(),
    };
    while rest.low < rest.high {
        rest = halved(parts, name, rest);
    }
    rest.low
}

// The half of the chunks among which the last one stands that begins at the name or before it.
fn halved(parts: &[MemberChunk], name: &str, rest: Span) -> Span
    requires sorted { AreSorted (joined parts.now) }
    requires some { rest.low < rest.high }
    requires narrowed { IsNarrowed name.now parts.now rest }
    ensures smaller { result.high - result.low < rest.high - rest.low }
    ensures narrowed { IsNarrowed name.now parts.now result }
{
    let middle = rest.low + (rest.high - rest.low) / 2;
    if parts[middle].begins_behind(name) {
        return Span {
            low: rest.low,
            high: middle,
        };
    }
    Span {
        low: middle + 1,
        high: rest.high,
    }
}

/// Puts a member behind the others.
pub fn push(
    alloc: Global,
    parts: &mut Vec<MemberChunk>,
    member: DraftMember,
) -> Result<(), OutOfMemory>
    ensures { OnOk result (joined parts.new.items ≡ joined parts.old.items ++ member ∷ []) }
{
    let count = parts.len();
    if count > 0 {
        let last = &mut parts[count - 1];
        if last.len() < MAX_MEMBERS {
            return last.push(member);
        }
    }
    parts.push(MemberChunk::of(alloc, member)?)?;
    Ok(())
}

/// Puts a member in at the place at which it belongs.
pub fn insert(
    alloc: Global,
    parts: &mut Vec<MemberChunk>,
    place: Place,
    member: DraftMember,
) -> Result<(), OutOfMemory>
    requires { IsGapIn parts.old.items place }
    ensures { OnOk result (joined parts.new.items ≡
        insert (joined parts.old.items) (number_of parts.old.items place) member) }
{
    if parts.is_empty() {
        return push(alloc, parts, member);
    }
    insert_in(parts, place, member)?;
    split_long(parts, place.part)
}

fn insert_in(
    parts: &mut Vec<MemberChunk>,
    place: Place,
    member: DraftMember,
) -> Result<(), OutOfMemory>
    requires part { place.part < length parts.old.items }
    requires offset { place.offset ≤ length (get_or parts.old.items place.part []) }
    ensures members { OnOk result (joined parts.new.items ≡
        insert (joined parts.old.items) (number_of parts.old.items place) member) }
    ensures count { length parts.new.items ≡ length parts.old.items }
{
    let part = &mut parts[place.part];
    part.insert(place.offset, member)
}

// Makes two chunks of one that got too long.
fn split_long(parts: &mut Vec<MemberChunk>, at: usize) -> Result<(), OutOfMemory>
    requires { at < length parts.old.items }
    ensures { OnOk result (joined parts.new.items ≡ joined parts.old.items) }
{
    let part = &mut parts[at];
    if part.len() <= MAX_MEMBERS {
        return Ok(());
    }
    let behind = part.cut(MAX_MEMBERS / 2)?;
    parts.insert(at + 1, behind)?;
    Ok(())
}

/// Takes the member at a place out. A chunk without members goes.
pub fn remove_at(parts: &mut Vec<MemberChunk>, place: Place) -> DraftMember
    requires { IsPlaceIn parts.old.items place }
    ensures value { result ≡ get_or (joined parts.old.items)
        (number_of parts.old.items place) result }
    ensures members { joined parts.new.items ≡
        remove (joined parts.old.items) (number_of parts.old.items place) }
{
    if parts[place.part].len() == 1 {
        let MemberChunk { mut all } = parts.remove(place.part);
        return all.remove(0);
    }
    let part = &mut parts[place.part];
    part.remove(place.offset)
}
