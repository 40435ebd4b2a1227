ghost use Rattle.std.specs.Prelude.{◌≡◌, ◌-◌, ◌^◌, ◌<◌, min, length, Ok, IfOk, IfErr, OnOk};
ghost use Rattle.std.specs.Option.{ForSome};
ghost use Rattle.base_types.specs.Meaning.{Meaning};
ghost use Rattle.json_patch.specs.Changes.{IsChange, IsWithin, Tells, IsFaultOf};
ghost use Rattle.json_patch.specs.Edits.{edited_at, came_of, deep_of, went_of, RefusedBy};
ghost use Rattle.json_patch.specs.Effects.{effect, moved, copied, tested, done, and_then};
ghost use Rattle.json_patch.specs.Limits.{within_limits};
ghost use Rattle.json_patch.specs.Patches.{applied};
ghost use Rattle.json_patch.specs.Targets.{is_proper_prefix};

use crate::draft::Draft;
use crate::drafting::{copy, draft_of, tree_of};
use crate::edit::{Edit, Refusal, edit_path};
use crate::fault::{ApplyCause, ApplyFault};
use crate::op::{Op, Patch};
use crate::sameness::is_same;
use crate::size::{Size, size_of};
use crate::walking::get;
use base_types::json::{Pointer, Tree};
use base_types::{OutOfMemory, Text};
use std::alloc::Global;

/// The most containers that may stand one inside another.
const MAX_DEPTH: u64 = 127;

/// The most values that a document may have.
const MAX_VALUES: u64 = 1_000_000;

/// What an operation did to the size of a document. The numbers stop at 2^64 - 1.
#[derive(Clone, Copy)]
pub struct Change {
    /// How many values came.
    pub came: u64,
    /// How many values left.
    pub went: u64,
    /// How many containers stand one inside another where a value came.
    pub depth: u64,
}

/// The change of a document that stays as it is.
const NO_CHANGE: Change = Change {
    came: 0,
    went: 0,
    depth: 0,
};

/// The operations of a patch in order on a tree, which stays as it is (RFC 6902 section 5). They work on a
/// draft that is made of it once, and each operation costs what it touches: the values that it brings,
/// takes away or compares, one look into each container on the way, and of a long array a look at its
/// chunks and the items of one of them.
pub fn apply(alloc: Global, tree: &Tree, patch: &Patch) -> Result<Tree, ApplyFault>
    ensures ok { IfOk result (λ made. applied 0 patch.now tree.now ≡ Ok made) }
    ensures fault { IfErr result (IsFaultOf (applied 0 patch.now tree.now)) }
{
    let mut made = match draft_of(alloc, tree) {
        Ok(made) => made,
        Err(OutOfMemory) => return Err(ApplyFault::OutOfMemory),
    };
    apply_all(alloc, &mut made, patch)?;
    match tree_of(alloc, &made) {
        Ok(tree) => Ok(tree),
        Err(OutOfMemory) => Err(ApplyFault::OutOfMemory),
    }
}

// The operations in order on a draft.
fn apply_all(alloc: Global, made: &mut Draft, patch: &Patch) -> Result<(), ApplyFault>
    ensures ok { OnOk result (applied 0 patch.now made.old ≡ Ok made.new) }
    ensures fault { IfErr result (IsFaultOf (applied 0 patch.now made.old)) }
{
    let ops = patch.as_slice();
    let mut known = None;
    for index in 0..ops.len() {
        match step(alloc, made, known, &ops[index]) {
            Ok(count) => known = Some(count),
            Err(Refusal::Cause(cause)) => {
                let index = index as u32;
                return Err(ApplyFault::Operation { index, cause });
            }
            Err(Refusal::OutOfMemory) => return Err(ApplyFault::OutOfMemory),
        }
    }
    Ok(())
}

// One operation with its limits, and how many values the document then has. `known` is that number before
// it, where the document is known to be within the limits.
fn step(alloc: Global, tree: &mut Draft, known: Option<u64>, op: &Op) -> Result<u64, Refusal>
    requires { ForSome known (IsWithin tree.old) }
    ensures done { IfOk result (λ _. done op.now tree.old ≡ Ok tree.new) }
    ensures known { IfOk result (IsWithin tree.new) }
    ensures refused { IfErr result (RefusedBy (done op.now tree.old)) }
{
    let change = make(alloc, tree, op)?;
    let size = match known {
        Some(count) => size_after(count, change),
        None => size_of(tree),
    };
    if size.depth > MAX_DEPTH {
        return Err(Refusal::Cause(ApplyCause::Deep));
    }
    if size.values > MAX_VALUES {
        return Err(Refusal::Cause(ApplyCause::Large));
    }
    Ok(size.values)
}

// The size of a document that had so many values within the limits, as far as the limits ask.
fn size_after(count: u64, change: Change) -> Size
    ensures { (old new : Meaning) → IsWithin old count → IsChange old new change
        → Tells new result }
{
    Size {
        values: count
            .saturating_add(change.came)
            .saturating_sub(change.went),
        depth: change.depth,
    }
}

fn make(alloc: Global, tree: &mut Draft, op: &Op) -> Result<Change, Refusal>
    ensures done { IfOk result (λ _. effect op.now tree.old ≡ Ok tree.new) }
    ensures change { IfOk result (IsChange tree.old tree.new) }
    ensures refused { IfErr result (RefusedBy (done op.now tree.old)) }
{
    match op {
        Op::Add { path, value } => {
            let value = draft_of(alloc, value)?;
            change_by(alloc, tree, path.as_slice(), Edit::Add(value))
        }
        Op::Remove { path } => change_by(alloc, tree, path.as_slice(), Edit::Remove),
        Op::Replace { path, value } => {
            let value = draft_of(alloc, value)?;
            change_by(alloc, tree, path.as_slice(), Edit::Replace(value))
        }
        Op::Move { from, path } => move_value(alloc, tree, from.as_slice(), path.as_slice()),
        Op::Copy { from, path } => copy_value(alloc, tree, from, path),
        Op::Test { path, value } => test_value(tree, path, value),
    }
}

fn change_by(alloc: Global, tree: &mut Draft, path: &[Text], edit: Edit) -> Result<Change, Refusal>
    ensures done { IfOk result (λ _. edited_at path.now edit tree.old ≡ Ok tree.new) }
    ensures change { IfOk result (IsChange tree.old tree.new) }
    ensures refused { IfErr result (RefusedBy
        (and_then (edited_at path.now edit tree.old) within_limits)) }
{
    let (came, depth) = coming(&edit, path.len());
    if depth > MAX_DEPTH {
        return Err(refuse_deep(alloc, tree, path, edit));
    }
    let left = edit_path(alloc, tree, path, edit)?;
    Ok(Change {
        came,
        went: values_of(&left),
        depth,
    })
}

// Why an edit isn't made whose value would be too deep there: because it can't be made, or else for the depth. A value
// without depth is put in for it, so that no document gets too deep before it is given up.
fn refuse_deep(alloc: Global, tree: &mut Draft, path: &[Text], edit: Edit) -> Refusal
    requires { 127 < deep_of edit (length path.now) }
    ensures { RefusedBy (and_then (edited_at path.now edit tree.old) within_limits) result }
{
    match edit_path(alloc, tree, path, edit.flat()) {
        Ok(_) => Refusal::Cause(ApplyCause::Deep),
        Err(refusal) => refusal,
    }
}

// How many values an edit brings, and how deep it reaches below so many containers.
fn coming(edit: &Edit, level: usize) -> (u64, u64)
    ensures values { result.0 ≡ min (came_of edit.now) (2 ^ 64 - 1) }
    ensures depth { result.1 ≡ min (deep_of edit.now level) (2 ^ 64 - 1) }
{
    match edit {
        Edit::Add(value) | Edit::Replace(value) => {
            let size = size_of(value);
            (size.values, size.depth.saturating_add(level as u64))
        }
        Edit::Remove => (0, 0),
    }
}

fn values_of(left: &Option<Draft>) -> u64
    ensures { result ≡ min (went_of left.now) (2 ^ 64 - 1) }
{
    match left {
        Some(value) => size_of(value).values,
        None => 0,
    }
}

// The value is taken out and put in, and not copied. Where it doesn't get deeper its depth isn't asked.
fn move_value(
    alloc: Global,
    tree: &mut Draft,
    from: &[Text],
    path: &[Text],
) -> Result<Change, Refusal>
    ensures done { IfOk result (λ _. moved from.now path.now tree.old ≡ Ok tree.new) }
    ensures change { IfOk result (IsChange tree.old tree.new) }
    ensures refused { IfErr result (RefusedBy
        (and_then (moved from.now path.now tree.old) within_limits)) }
{
    if is_proper_prefix(from, path) {
        return Err(Refusal::Cause(ApplyCause::IntoItself));
    }
    if from.is_empty() {
        return Ok(NO_CHANGE);
    }
    let Some(value) = edit_path(alloc, tree, from, Edit::Remove)? else {
        unreachable!();
    };
    let depth = if path.len() <= from.len() {
        0
    } else {
        size_of(&value).depth.saturating_add(path.len() as u64)
    };
    if depth > MAX_DEPTH {
        return Err(refuse_deep(alloc, tree, path, Edit::Add(value)));
    }
    let left = edit_path(alloc, tree, path, Edit::Add(value))?;
    Ok(Change {
        came: 0,
        went: values_of(&left),
        depth,
    })
}

// No recursion: a pointer may have as many tokens as its text has bytes.
fn is_proper_prefix(from: &[Text], path: &[Text]) -> bool
    ensures { result ≡ is_proper_prefix from.now path.now }
{
    if from.len() >= path.len() {
        return false;
    }
    path.starts_with(from)
}

fn copy_value(
    alloc: Global,
    tree: &mut Draft,
    from: &Pointer,
    path: &Pointer,
) -> Result<Change, Refusal>
    ensures done { IfOk result (λ _. copied from.now path.now tree.old ≡ Ok tree.new) }
    ensures change { IfOk result (IsChange tree.old tree.new) }
    ensures refused { IfErr result (RefusedBy
        (and_then (copied from.now path.now tree.old) within_limits)) }
{
    let value = match get(tree, from)? {
        Some(value) => copy(alloc, value)?,
        None => return Err(Refusal::Cause(ApplyCause::NoValue)),
    };
    change_by(alloc, tree, path.as_slice(), Edit::Add(value))
}

fn test_value(tree: &Draft, path: &Pointer, value: &Tree) -> Result<Change, Refusal>
    ensures done { IfOk result (λ _. tested path.now value.now tree.now ≡ Ok tree.now) }
    ensures change { IfOk result (IsChange tree.now tree.now) }
    ensures refused { IfErr result (RefusedBy
        (and_then (tested path.now value.now tree.now) within_limits)) }
{
    match get(tree, path)? {
        None => Err(Refusal::Cause(ApplyCause::NoValue)),
        Some(there) => {
            if is_same(there, value) {
                Ok(NO_CHANGE)
            } else {
                Err(Refusal::Cause(ApplyCause::Differs))
            }
        }
    }
}
