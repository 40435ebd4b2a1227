ghost use Rattle.std.specs.Prelude.{◌≡◌, ◌++◌, ◌≤◌, ◌<◌, ◌-◌, length, map, All, IsSome, IfOk, OnOk, codes, decimal};
ghost use Rattle.std.specs.Prelude.{option_map, option_and_then, slice_get};
ghost use Rattle.std.specs.List.{flat_map};
ghost use Rattle.std.specs.Option.{option_to_list};
ghost use Rattle.audit_event.specs.Events.{IsSound};
ghost use Rattle.setup_file.specs.Resources.{tracked_as};
ghost use Rattle.setup_file.specs.Sound.{IsLaterList};
ghost use Rattle.page_chains.specs.Chains.{chain_within, checkpoint_of, begins, chain_of, chains_in, chains_of};
ghost use Rattle.page_chains.specs.Following.{AreChains};
ghost use Rattle.page_chains.specs.Links.{AreLinks, stepped};
ghost use Rattle.page_chains.specs.Pages.{pages_of};

use crate::finding::links_of;
use crate::page::{Asked, Page};
use crate::reaching::reached_after;
use crate::reading::parts_of;
use audit_event::Events;
use base_types::{OutOfMemory, Text};
use hash_seed::Seed;
use setup_file::{Checkpoint, Checkpoints, Setup, Snapshot, SnapshotObject};
use std::alloc::Global;

fn copied(alloc: Global, object: &SnapshotObject) -> Result<SnapshotObject, OutOfMemory>
    ensures { IfOk result (λ made. made ≡ object.now) }
{
    Ok(SnapshotObject {
        key: object.key.clone()?,
        revision: object.revision,
        uid: object.uid.clone()?,
        tree: object.tree.copy(alloc)?,
    })
}

// Puts the items of a page behind others.
fn add_items(alloc: Global, items: &mut Snapshot, page: &Page) -> Result<(), OutOfMemory>
    ensures { OnOk result (items.new ≡ items.old ++ page.now.items) }
{
    for object in page.items.as_slice() {
        items.push(copied(alloc, object)?)?;
    }
    Ok(())
}

// The items of pages in order.
fn items_of(alloc: Global, chain: &[&Page]) -> Result<Snapshot, OutOfMemory>
    ensures { IfOk result (λ items. items ≡ flat_map (λ page. page.now.items) chain.now) }
{
    let mut items = Snapshot::new(alloc);
    for page in chain {
        add_items(alloc, &mut items, page)?;
    }
    Ok(items)
}

fn name_of(alloc: Global, line: u64) -> Result<Text, OutOfMemory>
    ensures { IfOk result (λ name. name ≡ codes "pages:" ++ decimal line) }
{
    Ok(Text::from_string(format!(in alloc; "pages:{line}")?))
}

fn checkpoint_of(alloc: Global, first: &Page, chain: &[&Page]) -> Result<Checkpoint, OutOfMemory>
    ensures { IfOk result
        (λ made. made ≡ checkpoint_of first.now (map (λ page. page.now) chain.now)) }
{
    Ok(Checkpoint {
        name: name_of(alloc, first.line)?,
        group: first.group.clone()?,
        resource: first.resource.clone()?,
        namespace: first.scope.clone()?,
        revision: first.revision,
        items: items_of(alloc, chain)?,
    })
}

fn begins(page: &Page) -> bool
    ensures { result ≡ begins page.now }
{
    matches!(page.asked, Asked::First) && page.token.is_some()
}

// The pages from a place on to one without a token.
fn chain_from<'a>(
    alloc: Global,
    pages: &'a [Page],
    links: &[usize],
    first: usize,
) -> Result<Option<Vec<&'a Page>>, OutOfMemory>
    requires within { first < length pages.now }
    requires links { AreLinks pages.now links.now }
    ensures { IfOk result (λ chain. option_map (λ all. map (λ page. page.now) all.items) chain
        ≡ option_and_then (chain_within (length pages.now) pages.now) (slice_get pages.now first)) }
{
    let mut chain = Vec::new(alloc);
    let mut here = first;
    for _step in 0..pages.len() {
        let page = &pages[here];
        chain.push(page)?;
        if page.token.is_none() {
            return Ok(Some(chain));
        }
        if links[here] == here {
            return Ok(None);
        }
        here = links[here];
    }
    Ok(None)
}

// The checkpoint of the chain that begins at a place. `last` is where as many steps lead to as a chain can have, so
// that pages which lead round in a circle, or to one that isn't there, are told at once.
fn chain_at(
    alloc: Global,
    pages: &[Page],
    links: &[usize],
    first: usize,
    last: usize,
) -> Result<Option<Checkpoint>, OutOfMemory>
    requires within { first < length pages.now }
    requires last_within { last < length pages.now }
    requires links { AreLinks pages.now links.now }
    requires last { last ≡ stepped links.now (length pages.now - 1) first }
    ensures { IfOk result
        (λ found. found ≡ option_and_then (chain_of pages.now) (slice_get pages.now first)) }
{
    let page = &pages[first];
    if !begins(page) {
        return Ok(None);
    }
    if pages[last].token.is_some() {
        return Ok(None);
    }
    match chain_from(alloc, pages, links, first)? {
        Some(chain) => Ok(Some(checkpoint_of(alloc, page, &chain)?)),
        None => Ok(None),
    }
}

// Puts what was found behind others.
fn put(found: &mut Checkpoints, more: Option<Checkpoint>) -> Result<(), OutOfMemory>
    ensures { OnOk result (found.new ≡ found.old ++ option_to_list more) }
{
    if let Some(checkpoint) = more {
        found.push(checkpoint)?;
    }
    Ok(())
}

fn chains_in(alloc: Global, pages: &[Page], seed: Seed) -> Result<Checkpoints, OutOfMemory>
    ensures chains { IfOk result (λ found. found ≡ chains_in pages.now) }
    ensures few { IfOk result (λ found. length found ≤ length pages.now) }
{
    let links = links_of(alloc, pages, seed)?;
    let last = reached_after(alloc, &links, pages.len().saturating_sub(1))?;
    let mut found = Checkpoints::new(alloc);
    for first in 0..pages.len() {
        put(
            &mut found,
            chain_at(alloc, pages, &links, first, last[first])?,
        )?;
    }
    Ok(found)
}

/// Puts the lists that clients read in pages together: each chain of pages is a whole list at one revision, which is
/// no earlier than the log. The events stand in the order of their lines. The hashes of tokens begin with the seed.
pub fn chains(
    alloc: Global,
    setup: &Setup,
    events: &Events,
    seed: Seed,
) -> Result<Checkpoints, OutOfMemory>
    ensures chains { IfOk result (λ found. found ≡ chains_of setup.now events.now) }
    ensures each { IfOk result (AreChains (pages_of setup.now events.now)) }
    ensures few { IfOk result (λ found. length found ≤ length events.now) }
    ensures tracked { IfOk result
        (All (λ chain. IsSome (tracked_as setup.now.resources chain.group chain.resource))) }
    ensures not_below { IfOk result (All (λ chain. setup.now.start ≤ chain.revision)) }
    ensures sound { All IsSound events.now
        → IfOk result (All (IsLaterList setup.now.start setup.now.resources)) }
{
    let parts = parts_of(alloc, setup, events.as_slice())?;
    let found = chains_in(alloc, parts.as_slice(), seed)?;
    Ok(found)
}
