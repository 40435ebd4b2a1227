ghost use Rattle.std.specs.Prelude.{◌≡◌, IfOk, map};
ghost use Rattle.std.specs.List.Sorted.{IsPermutation};
ghost use Rattle.write_groups.specs.Hiding.{hiding_at, hidings_of, numbered, spans_from, IsSorted};

use crate::event::{LogEvent, Shown};
use base_types::{Cover, Moment, ObjectKey, OutOfMemory};
use clouds::{Clouds, OpaqueSpan};
use std::alloc::Global;
use std::marker::Model;

/// An unrecorded write: it may have changed any one of the objects that the cover stands for, and didn't begin before
/// the moment.
#[derive(Drop)]
pub struct Hiding {
    pub cover: Cover,
    pub since: Moment,
}

/// When unrecorded writes may have begun. Contracts see these writes, the earliest first.
// The writes are numbered in this order, and the numbers are the places of clouds: so the first write that covers a
// key is found as the key's first clouded place.
#[derive(Drop)]
pub struct Hidden {
    begins: Vec<Moment>,
    covers: Clouds,
}

impl Model for Hidden {
    ghost use Rattle.std.specs.Prelude.{List};
    ghost use Rattle.write_groups.specs.declared.hidden.Hiding.{Hiding};

    ghost Value = { List Hiding };

    ghost use Rattle.write_groups.specs.Hiding.{hidings_in, AreNumbered};

    ghost view = { λ h. hidings_in h.covers.spans h.begins.items };

    ghost invariant = { λ h. AreNumbered h.covers h.begins.items };
}

// The unrecorded write that an event stands for.
fn hiding_at(event: &LogEvent) -> Result<Option<Hiding>, OutOfMemory>
    ensures { IfOk result (λ hiding. hiding ≡ hiding_at event.now) }
{
    match &event.answer {
        Shown::Opaque { cover } => Ok(Some(Hiding {
            cover: cover.clone()?,
            since: event.lo,
        })),
        _ => Ok(None),
    }
}

// The unrecorded writes of a log.
fn hidings_of(alloc: Global, events: &[LogEvent]) -> Result<Vec<Hiding>, OutOfMemory>
    ensures { IfOk result (λ hidings. hidings.items ≡ hidings_of events.now) }
{
    let mut hidings = Vec::new(alloc);
    for event in events {
        if let Some(hiding) = hiding_at(event)? {
            hidings.push(hiding)?;
        }
    }
    Ok(hidings)
}

fn sorted(mut hidings: Vec<Hiding>) -> Result<Vec<Hiding>, OutOfMemory>
    ensures same { IfOk result (λ order. IsPermutation hidings.items order.items) }
    ensures sorted { IfOk result (λ order. IsSorted order.items) }
{
    hidings.sort_by_key(|hiding| hiding.since)?;
    Ok(hidings)
}

fn begins_of(alloc: Global, hidings: &[Hiding]) -> Result<Vec<Moment>, OutOfMemory>
    ensures { IfOk result (λ begins. begins.items ≡ map (λ hiding. hiding.since) hidings.now) }
{
    let begins = hidings.iter().map(|hiding| hiding.since).collect(alloc)?;
    Ok(begins)
}

fn numbered(number: u64, hiding: &Hiding) -> Result<OpaqueSpan, OutOfMemory>
    ensures { IfOk result (λ span. span ≡ numbered number hiding.now) }
{
    Ok(OpaqueSpan {
        cover: hiding.cover.clone()?,
        low: number,
        high: 0,
    })
}

fn spans_of(alloc: Global, hidings: &[Hiding]) -> Result<Vec<OpaqueSpan>, OutOfMemory>
    ensures { IfOk result (λ spans. spans.items ≡ spans_from 0 hidings.now) }
{
    let mut spans = Vec::with_capacity(alloc, hidings.len())?;
    for (i, hiding) in hidings.iter().enumerate() {
        spans.push(numbered(i as u64, hiding)?)?;
    }
    Ok(spans)
}

impl Hidden {
    ghost use Rattle.write_groups.specs.Hiding.{IsFirstSince};

    /// The unrecorded writes of a log.
    pub fn build(alloc: Global, events: &[LogEvent]) -> Result<Hidden, OutOfMemory>
        ensures { IfOk result (IsPermutation (hidings_of events.now)) }
    {
        let hidings = sorted(hidings_of(alloc, events)?)?;
        Ok(Hidden {
            begins: begins_of(alloc, &hidings)?,
            covers: Clouds::build(alloc, &spans_of(alloc, &hidings)?, &[])?,
        })
    }

    /// When the first write that may have changed the key's object may have begun.
    pub fn since(&self, key: &ObjectKey) -> Option<Moment>
        ensures { IsFirstSince self.now key.now result }
    {
        let place = self.covers.meets(key, 1, u64::MAX)?;
        let begin = self.begins.get((place - 1) as usize)?;
        Some(*begin)
    }
}
