ghost use Rattle.std.specs.Prelude.{◌≡◌, ◌+◌, ◌<◌, true, length, take, IfOk, OnOk, OnErr, IsSome};
ghost use Rattle.std.specs.Prelude.{Some, option_map, slice_get};
ghost use Rattle.std.specs.Option.{option_map_or};
ghost use Rattle.page_chains.specs.Chains.{key_with, comes_before};
ghost use Rattle.page_chains.specs.Finding.{asked_key, known, FindsFirst};
ghost use Rattle.page_chains.specs.Links.{LeadsTo, IsLink, AreLinks};
ghost use Rattle.page_chains.specs.declared.page.Page.{Page};

use crate::page::{Asked, Page, PageKey};
use base_types::{OutOfMemory, Text};
use hash_seed::{Seed, Seeded};
use std::alloc::Global;
use std::collections::HashMap;

/// Places of pages by their keys.
pub type Places = HashMap<PageKey, usize, Seeded>;

fn key_with(page: &Page, token: &Text) -> Result<PageKey, OutOfMemory>
    ensures { IfOk result (λ key. key ≡ key_with page.now token.now) }
{
    Ok(PageKey {
        group: page.group.clone()?,
        resource: page.resource.clone()?,
        namespace: page.namespace.clone()?,
        revision: page.revision,
        token: token.clone()?,
    })
}

// The key by which a page was asked for.
fn asked_key(page: &Page) -> Result<Option<PageKey>, OutOfMemory>
    ensures key { IfOk result (λ key. key ≡ asked_key page.now) }
    ensures memory { OnErr result (IsSome (asked_key page.now)) }
{
    match &page.asked {
        Asked::Next(token) => Ok(Some(key_with(page, token)?)),
        Asked::First => Ok(None),
        Asked::Unclear => Ok(None),
    }
}

// Whether an event is judged before another: by the time of the answer, and then by line.
fn comes_before(a: &Page, b: &Page) -> bool
    ensures { result ≡ comes_before a.now b.now }
{
    a.staged < b.staged || (a.staged == b.staged && a.line < b.line)
}

// The page at the place that is known for a key.
fn known<'a>(pages: &'a [Page], places: &Places, key: &PageKey) -> Option<&'a Page>
    ensures { option_map (λ page. page.now) result
        ≡ known (⟦<PageKey as PartialEq>⟧.eq) pages.now places.now key.now }
{
    match places.get(key) {
        Some(place) => pages.get(*place),
        None => None,
    }
}

// Whether a page takes the place that is known for its key.
fn is_sooner(pages: &[Page], places: &Places, key: &PageKey, page: &Page) -> bool
    ensures { result
        ≡ option_map_or (comes_before page.now) (known (⟦<PageKey as PartialEq>⟧.eq) pages.now
        places.now key.now) true }
{
    match known(pages, places, key) {
        Some(found) => comes_before(page, found),
        None => true,
    }
}

// Keeps the place of a page that comes before the one that is known for its key.
fn keep_sooner(pages: &[Page], places: &mut Places, place: usize) -> Result<(), OutOfMemory>
    requires within { place < length pages.now }
    requires first { FindsFirst (⟦<PageKey as PartialEq>⟧.eq) pages.now (take place pages.now)
        places.old }
    ensures first { OnOk result (FindsFirst (⟦<PageKey as PartialEq>⟧.eq) pages.now
        (take (place + 1) pages.now) places.new) }
    ensures memory { OnErr result ((page : Page) → slice_get pages.now place ≡ Some page
        → IsSome (asked_key page)) }
{
    let page = &pages[place];
    let Some(key) = asked_key(page)? else {
        return Ok(());
    };
    if is_sooner(pages, places, &key, page) {
        places.insert(key, place)?;
    }
    Ok(())
}

// Finds the first page, in the order of judgement, that each token leads to.
fn first_places(alloc: Global, pages: &[Page], seed: Seed) -> Result<Places, OutOfMemory>
    ensures { IfOk result
        (λ places. FindsFirst (⟦<PageKey as PartialEq>⟧.eq) pages.now pages.now places) }
{
    let mut places = HashMap::with_hasher(alloc, Seeded::new(seed));
    for place in 0..pages.len() {
        keep_sooner(pages, &mut places, place)?;
    }
    Ok(places)
}

// The place that is known for a key, or this one where none is.
fn known_place(pages: &[Page], places: &Places, key: &PageKey, place: usize) -> usize
    requires { place < length pages.now }
    ensures within { result < length pages.now }
    ensures leads { LeadsTo pages.now place result (known (⟦<PageKey as PartialEq>⟧.eq)
        pages.now places.now key.now) }
{
    match places.get(key) {
        Some(next) if *next < pages.len() => *next,
        _ => place,
    }
}

// The place of the page that follows one, which is its own place where none follows.
fn link_of(pages: &[Page], places: &Places, place: usize) -> Result<usize, OutOfMemory>
    requires within { place < length pages.now }
    requires first { FindsFirst (⟦<PageKey as PartialEq>⟧.eq) pages.now pages.now places.now }
    ensures within { IfOk result (λ to. to < length pages.now) }
    ensures leads { IfOk result (λ to. IsLink pages.now place to) }
    ensures memory { OnErr result ((page : Page) → slice_get pages.now place ≡ Some page
        → IsSome page.token) }
{
    let page = &pages[place];
    let Some(token) = &page.token else {
        return Ok(place);
    };
    let key = key_with(page, token)?;
    Ok(known_place(pages, places, &key, place))
}

/// Where each page leads to.
pub fn links_of(alloc: Global, pages: &[Page], seed: Seed) -> Result<Vec<usize>, OutOfMemory>
    ensures { IfOk result (λ links. AreLinks pages.now links.items) }
{
    let places = first_places(alloc, pages, seed)?;
    let mut links = Vec::with_capacity(alloc, pages.len())?;
    for place in 0..pages.len() {
        links.push(link_of(pages, &places, place)?)?;
    }
    Ok(links)
}
