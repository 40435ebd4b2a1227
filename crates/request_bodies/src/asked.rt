ghost use Rattle.std.specs.Prelude.{◌≡◌, ◌≢◌, ◌||◌, IfOk, OnOk, OnErr, IsSome, IsTrue, IsFalse};
ghost use Rattle.std.specs.Prelude.{is_some, option_map};
ghost use Rattle.audit_event.specs.Bodies.{kept};
ghost use Rattle.base_types.specs.Parts.{items_of};
ghost use Rattle.json_patch.specs.Reading.{patch_of};
ghost use Rattle.setup_file.specs.declared.setup.Tracked.{Tracked as Resource};
ghost use Rattle.setup_file.specs.Requests.{is_merge_patch};
ghost use Rattle.request_bodies.specs.Requests.{is_of_another, is_created};
ghost use Rattle.request_bodies.specs.Asked.{patched, asked_by_object, asked_by_operations};
ghost use Rattle.request_bodies.specs.Asked.{asked_by_json_patch, asked_by_merge_patch, asked_by_patch};
ghost use Rattle.request_bodies.specs.Asked.{asked_by, asked_of};

use crate::patched::{is_of_managed, merged, typed, untyped};
use crate::requests::{Write, is_created, is_of_another, write_of};
use audit_event::Event;
use base_types::OutOfMemory;
use base_types::json::{Tree, stored_form};
use json_patch::{ApplyFault, Patch, PatchFault, apply, read_patch};
use packed_tree::Packed;
use setup_file::{Tracked, is_merge_patch};
use std::alloc::Global;

/// What a write asks its object to become.
#[derive(Drop)]
pub enum Asking {
    /// It can't be told: the body wasn't recorded, or isn't understood.
    NotJudged,
    /// Nothing that there could be: the patch can't be read or applied.
    Wrong,
    /// This tree.
    Whole(Tree),
    /// What it was, but for the marks of a deletion.
    Finalizing,
}

fn asked_by_object(alloc: Global, tracked: &Tracked, body: &Packed) -> Result<Asking, OutOfMemory>
    ensures asking { IfOk result (λ asking. asking ≡ asked_by_object tracked.now body.now) }
    ensures memory { OnErr result (IsFalse (is_of_another tracked.now body.now)) }
{
    if is_of_another(tracked, &body.root()) {
        return Ok(Asking::NotJudged);
    }
    Ok(Asking::Whole(stored_form(body.tree(alloc)?)))
}

// A patch that can't be applied asks for nothing that there could be.
fn asked_by_applied(applied: Result<Tree, ApplyFault>) -> Result<Asking, OutOfMemory>
    ensures asking { IfOk result (λ asking. asking ≡ patched applied) }
    ensures applied { OnOk result (applied ≢ Err ApplyFault.OutOfMemory) }
    ensures memory { OnErr result (applied ≡ Err ApplyFault.OutOfMemory) }
{
    match applied {
        Ok(made) => Ok(Asking::Whole(untyped(made))),
        Err(ApplyFault::Operation { .. }) => Ok(Asking::Wrong),
        Err(ApplyFault::OutOfMemory) => Err(OutOfMemory),
    }
}

fn asked_by_operations(
    alloc: Global,
    tracked: &Tracked,
    patch: &Patch,
    old: Option<&Tree>,
) -> Result<Asking, OutOfMemory>
    ensures asking { IfOk result (λ asking. asking ≡ asked_by_operations tracked.now patch.now
        (option_map (λ tree. tree.now) old.entry)) }
    ensures memory { OnErr result (IsSome (option_map (λ tree. tree.now) old.entry)) }
{
    let Some(old) = old else {
        return Ok(Asking::Wrong);
    };
    let old = typed(alloc, tracked, old)?;
    asked_by_applied(apply(alloc, &old, patch))
}

// A patch that can't be read asks for nothing that there could be.
fn asked_by_unread(fault: PatchFault) -> Result<Asking, OutOfMemory>
    ensures asking { IfOk result (λ asking. asking ≡ Asking.Wrong) }
    ensures fault { OnOk result (fault ≢ PatchFault.OutOfMemory) }
    ensures memory { OnErr result (fault ≡ PatchFault.OutOfMemory) }
{
    match fault {
        PatchFault::NotList => Ok(Asking::Wrong),
        PatchFault::TooMany => Ok(Asking::Wrong),
        PatchFault::BadOperation { .. } => Ok(Asking::Wrong),
        PatchFault::OutOfMemory => Err(OutOfMemory),
    }
}

fn asked_by_json_patch(
    alloc: Global,
    tracked: &Tracked,
    body: &Tree,
    old: Option<&Tree>,
) -> Result<Asking, OutOfMemory>
    ensures { IfOk result (λ asking. asking ≡ asked_by_json_patch tracked.now (patch_of body.now)
        (option_map (λ tree. tree.now) old.entry)) }
{
    let patch = match read_patch(alloc, body) {
        Ok(patch) => patch,
        Err(fault) => return asked_by_unread(fault),
    };
    if is_of_managed(&patch) {
        return Ok(Asking::NotJudged);
    }
    asked_by_operations(alloc, tracked, &patch, old)
}

fn asked_by_merge_patch(
    alloc: Global,
    body: &Tree,
    old: Option<&Tree>,
) -> Result<Asking, OutOfMemory>
    ensures asking { IfOk result (λ asking. (tracked : Resource) → asking ≡ asked_by_merge_patch
        tracked body.now (option_map (λ tree. tree.now) old.entry)) }
    ensures memory { OnErr result (IsSome (option_map (λ tree. tree.now) old.entry)) }
{
    match old {
        Some(old) => Ok(Asking::Whole(merged(alloc, old, body)?)),
        None => Ok(Asking::Wrong),
    }
}

fn asked_by_patch(
    alloc: Global,
    tracked: &Tracked,
    event: &Event,
    body: &Packed,
    old: Option<&Tree>,
) -> Result<Asking, OutOfMemory>
    ensures asking { IfOk result (λ asking. asking ≡ asked_by_patch tracked.now event.now body.now
        (option_map (λ tree. tree.now) old.entry)) }
    ensures memory { OnErr result (IsTrue (is_some (items_of body.now)
        || is_merge_patch tracked.now event.now.attrs body.now)) }
{
    let root = body.root();
    if root.as_items().is_some() {
        return asked_by_json_patch(alloc, tracked, &body.tree(alloc)?, old);
    }
    if is_merge_patch(tracked, &event.attrs, &root) {
        return asked_by_merge_patch(alloc, &body.tree(alloc)?, old);
    }
    Ok(Asking::NotJudged)
}

fn asked_by(
    alloc: Global,
    write: Write,
    tracked: &Tracked,
    event: &Event,
    body: &Packed,
    old: Option<&Tree>,
) -> Result<Asking, OutOfMemory>
    ensures asking { IfOk result (λ asking. asking ≡ asked_by write tracked.now event.now body.now
        (option_map (λ tree. tree.now) old.entry)) }
    ensures memory { OnErr result ((write ≢ Write.Delete) × (write ≢ Write.Other)) }
    ensures created { OnErr result (write ≡ Write.Patch
        → IsFalse (is_created event.now.status.code)) }
{
    match write {
        Write::Put => asked_by_object(alloc, tracked, body),
        Write::Patch => {
            if is_created(event.status.code) {
                return Ok(Asking::NotJudged);
            }
            asked_by_patch(alloc, tracked, event, body, old)
        }
        Write::Delete => Ok(Asking::Finalizing),
        Write::Other => Ok(Asking::NotJudged),
    }
}

/// What the write of an event asks of the old object, or of none.
pub fn asked_of(
    alloc: Global,
    tracked: &Tracked,
    event: &Event,
    old: Option<&Tree>,
) -> Result<Asking, OutOfMemory>
    ensures asking { IfOk result (λ asking. asking ≡ asked_of tracked.now event.now
        (option_map (λ tree. tree.now) old.entry)) }
    ensures memory { OnErr result (IsSome (kept event.now.request)) }
{
    let Some(body) = event.request.kept() else {
        return Ok(Asking::NotJudged);
    };
    let write = write_of(event.attrs.verb.as_str());
    asked_by(alloc, write, tracked, event, body, old)
}
