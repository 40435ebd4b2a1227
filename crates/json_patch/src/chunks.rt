ghost use Rattle.std.specs.Prelude.{◌≡◌, ◌<◌, ◌≤◌, ◌+◌, ◌^◌, ◌++◌, ◌∷◌, [], length, get_or, set, insert, remove};
ghost use Rattle.std.specs.Prelude.{Some, IfOk, IfErr, OnOk, OnErr, IfSome, IfNone, None, option_map, option_and_then};
ghost use Rattle.base_types.specs.Meaning.{kids_of};
ghost use Rattle.base_types.specs.Pointers.{index_of, kid_at};
ghost use Rattle.json_patch.specs.Joined.{joined, IsPlaceIn, number_of};

use crate::draft::{Chunk, Chunks, Draft};
use base_types::OutOfMemory;
use base_types::json::read_index;
use std::alloc::Global;
use std::mem;

/// The most items of one chunk.
const MAX_ITEMS: usize = 1_024;

/// Where an item stands: in which chunk, and at which place there.
#[derive(Clone, Copy)]
pub struct Place {
    pub part: usize,
    pub offset: usize,
}

impl Chunk {
    fn of(alloc: Global, item: Draft) -> Result<Chunk, OutOfMemory>
        ensures { IfOk result (λ made. made ≡ item ∷ []) }
    {
        let mut all = Vec::new(alloc);
        all.push(item)?;
        Ok(Chunk { all })
    }

    pub fn len(&self) -> usize
        ensures { result ≡ length self.now }
    {
        self.all.len()
    }

    fn push(&mut self, item: Draft) -> Result<(), OutOfMemory>
        ensures { OnOk result (self.new ≡ self.old ++ item ∷ []) }
    {
        self.all.push(item)?;
        Ok(())
    }

    fn insert(&mut self, at: usize, item: Draft) -> Result<(), OutOfMemory>
        requires { at ≤ length self.old }
        ensures { OnOk result (self.new ≡ insert self.old at item) }
    {
        self.all.insert(at, item)?;
        Ok(())
    }

    fn remove(&mut self, at: usize) -> Draft
        requires { at < length self.old }
        ensures value { result ≡ get_or self.old at result }
        ensures items { self.new ≡ remove self.old at }
    {
        self.all.remove(at)
    }

    // Takes the items out that stand behind the first ones.
    fn cut(&mut self, at: usize) -> Result<Chunk, OutOfMemory>
        requires { at ≤ length self.old }
        ensures { IfOk result (λ made. self.new ++ made ≡ self.old) }
    {
        let all = self.all.split_off(at)?;
        Ok(Chunk { all })
    }
}

impl Chunks {
    /// The array without items.
    pub fn new(alloc: Global) -> Chunks
        ensures { result ≡ [] }
    {
        Chunks {
            parts: Vec::new(alloc),
        }
    }

    /// How many items there are. There is no memory for more than a `usize` counts.
    pub fn len(&self) -> Result<usize, OutOfMemory>
        ensures count { IfOk result (λ count. count ≡ length self.now) }
        ensures uncounted { OnErr result (2 ^ 64 ≤ length self.now) }
    {
        count(&self.parts)
    }

    /// Puts an item behind the others.
    pub fn push(&mut self, alloc: Global, item: Draft) -> Result<(), OutOfMemory>
        ensures { OnOk result (self.new ≡ self.old ++ item ∷ []) }
    {
        let count = self.parts.len();
        if count > 0 {
            let last = &mut self.parts[count - 1];
            if last.len() < MAX_ITEMS {
                return last.push(item);
            }
        }
        self.parts.push(Chunk::of(alloc, item)?)?;
        Ok(())
    }

    /// Puts an item before the one at an index, or behind the last.
    pub fn insert(&mut self, alloc: Global, at: usize, item: Draft) -> Result<(), OutOfMemory>
        requires { at ≤ length self.old }
        ensures { OnOk result (self.new ≡ insert self.old at item) }
    {
        match locate(&self.parts, at) {
            Ok(place) => {
                insert_in(&mut self.parts, place, item)?;
                split_long(&mut self.parts, place.part)
            }
            Err(_) => self.push(alloc, item),
        }
    }
}

impl Chunks {
    /// The item at an index, where the token of a pointer is one.
    pub fn item(&self, token: &str) -> Result<Option<&Draft>, OutOfMemory>
        ensures item { IfOk result (λ found. option_map (λ t. t.now) found ≡
            option_and_then (λ n. kid_at n (kids_of self.now)) (index_of token.now)) }
        ensures uncounted { OnErr result (2 ^ 64 ≤ length self.now) }
    {
        match find(&self.parts, token)? {
            Some(place) => {
                let part = &self.parts[place.part];
                Ok(Some(&part.all[place.offset]))
            }
            None => Ok(None),
        }
    }
}

fn count(parts: &[Chunk]) -> Result<usize, OutOfMemory>
    ensures count { IfOk result (λ count. count ≡ length (joined parts.now)) }
    ensures uncounted { OnErr result (2 ^ 64 ≤ length (joined parts.now)) }
{
    let mut count = 0usize;
    for part in parts {
        match count.checked_add(part.len()) {
            Some(sum) => count = sum,
            None => return Err(OutOfMemory),
        }
    }
    Ok(count)
}

/// The place of the item at the index that a token of a pointer is.
pub fn find(parts: &[Chunk], token: &str) -> Result<Option<Place>, OutOfMemory>
    ensures place { IfOk result (λ found. IfSome found (IsPlaceIn parts.now)) }
    ensures number { IfOk result (λ found. IfSome found (λ place. index_of token.now ≡
        Some (number_of parts.now place))) }
    ensures none { IfOk result (λ found. IfNone found
        (option_and_then (λ n. kid_at n (kids_of (joined parts.now)))
        (index_of token.now) ≡ None)) }
    ensures uncounted { OnErr result (2 ^ 64 ≤ length (joined parts.now)) }
{
    match read_index(token) {
        Some(index) => match locate(parts, index) {
            Ok(place) => Ok(Some(place)),
            Err(_) => Ok(None),
        },
        None => {
            // no index, or one that is past all that a `usize` counts
            let _count = count(parts)?;
            Ok(None)
        }
    }
}

/// The place of the item at an index, or else by how much the index is past them all.
pub fn locate(parts: &[Chunk], at: usize) -> Result<Place, usize>
    ensures place { IfOk result (IsPlaceIn parts.now) }
    ensures number { IfOk result (λ place. at ≡ number_of parts.now place) }
    ensures past { IfErr result (λ more. at ≡ length (joined parts.now) + more) }
{
    let mut rest = at;
    for part in 0..parts.len() {
        let count = parts[part].len();
        if rest < count {
            let offset = rest;
            return Ok(Place { part, offset });
        }
        rest -= count;
    }
    Err(rest)
}

fn insert_in(parts: &mut Vec<Chunk>, place: Place, item: Draft) -> Result<(), OutOfMemory>
    requires { IsPlaceIn parts.old.items place }
    ensures items { OnOk result (joined parts.new.items ≡
        insert (joined parts.old.items) (number_of parts.old.items place) item) }
    ensures count { length parts.new.items ≡ length parts.old.items }
{
    let part = &mut parts[place.part];
    part.insert(place.offset, item)
}

// Makes two chunks of one that got too long.
fn split_long(parts: &mut Vec<Chunk>, at: usize) -> Result<(), OutOfMemory>
    requires { at < length parts.old.items }
    ensures { OnOk result (joined parts.new.items ≡ joined parts.old.items) }
{
    let part = &mut parts[at];
    if part.len() <= MAX_ITEMS {
        return Ok(());
    }
    let behind = part.cut(MAX_ITEMS / 2)?;
    parts.insert(at + 1, behind)?;
    Ok(())
}

/// Takes the item at a place out.
pub fn remove_at(parts: &mut Vec<Chunk>, place: Place) -> Draft
    requires { IsPlaceIn parts.old.items place }
    ensures value { result ≡ get_or (joined parts.old.items)
        (number_of parts.old.items place) result }
    ensures items { joined parts.new.items ≡ remove (joined parts.old.items)
        (number_of parts.old.items place) }
{
    let part = &mut parts[place.part];
    part.remove(place.offset)
}

/// Puts an item at a place, and answers the one that stood there.
pub fn replace_at(parts: &mut Vec<Chunk>, place: Place, item: Draft) -> Draft
    requires { IsPlaceIn parts.old.items place }
    ensures value { result ≡ get_or (joined parts.old.items)
        (number_of parts.old.items place) result }
    ensures items { joined parts.new.items ≡ set (joined parts.old.items)
        (number_of parts.old.items place) item }
{
    let part = &mut parts[place.part];
    mem::replace(&mut part.all[place.offset], item)
}
