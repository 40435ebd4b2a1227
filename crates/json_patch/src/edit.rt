ghost use Rattle.std.specs.Prelude.{◌≡◌, ◌+◌, ◌<◌, ℕ, Ok, IfOk, IfErr, OnOk, length, [], ◌∷◌, Some, None};
ghost use Rattle.base_types.specs.Edits.{put};
ghost use Rattle.base_types.specs.Meaning.{items, members, kids_of, fields_of};
ghost use Rattle.base_types.specs.Names.{AreSorted};
ghost use Rattle.base_types.specs.Parts.{lookup};
ghost use Rattle.base_types.specs.Pointers.{child_of, pointed};
ghost use Rattle.json_patch.specs.Edits.{edited_at, change_of, missing_of, edited, RefusedBy, IsTaken, IsEdited};
ghost use Rattle.json_patch.specs.Effects.{place_of, added_in, removed_in, replaced_in};

use crate::chunks::{find, remove_at, replace_at};
use crate::draft::{Chunks, Draft, DraftMembers, DraftNode};
use crate::fault::ApplyCause;
use crate::members::find as find_member;
use base_types::json::read_index;
use base_types::{OutOfMemory, Text};
use std::alloc::{AllocFailed, Global};
use std::mem;

/// What changes under the last token of a target location.
#[derive(Drop)]
pub enum Edit {
    Add(Draft),
    Remove,
    Replace(Draft),
}

/// Why an edit isn't made. The document may then be part of what it was, and is given up.
#[derive(Clone, Copy)]
pub enum Refusal {
    Cause(ApplyCause),
    OutOfMemory,
}

impl From<OutOfMemory> for Refusal {
    ghost use Rattle.json_patch.specs.declared.edit.Refusal.TheVariants.{OutOfMemory as Refused};
    ghost use Rattle.std.specs.Prelude.{◌≡◌};

    ghost from_gives = { λ _ refusal. refusal ≡ Refused };

    fn from(_: OutOfMemory) -> Refusal {
        Refusal::OutOfMemory
    }
}

impl<T: Drop> From<AllocFailed<T>> for Refusal {
    ghost use Rattle.json_patch.specs.declared.edit.Refusal.TheVariants.{OutOfMemory};
    ghost use Rattle.std.specs.Prelude.{◌≡◌};

    ghost from_gives = { λ _ refusal. refusal ≡ OutOfMemory };

    fn from(_: AllocFailed<T>) -> Refusal {
        Refusal::OutOfMemory
    }
}

impl Edit {
    ghost use Rattle.json_patch.specs.Edits.{missing_of, flat_of};

    // The cause where the parent of the target location isn't there. It lets the edit go.
    fn missing(self) -> ApplyCause
        ensures { result ≡ missing_of self }
    {
        let cause = match &self {
            Edit::Add(_) => ApplyCause::NoParent,
            Edit::Remove | Edit::Replace(_) => ApplyCause::NoValue,
        };
        drop(self);
        cause
    }

    /// The same edit with a value that has no depth. It lets the other value go.
    pub fn flat(self) -> Edit
        ensures { result ≡ flat_of self }
    {
        let flat = match &self {
            Edit::Add(_) => Edit::Add(Draft {
                node: DraftNode::Null,
            }),
            Edit::Remove => Edit::Remove,
            Edit::Replace(_) => Edit::Replace(Draft {
                node: DraftNode::Null,
            }),
        };
        drop(self);
        flat
    }
}

/// Makes an edit at a target location, and answers the value that left the document.
pub fn edit_path(
    alloc: Global,
    tree: &mut Draft,
    path: &[Text],
    edit: Edit,
) -> Result<Option<Draft>, Refusal>
    ensures done { IfOk result (λ _. edited_at path.now edit tree.old ≡ Ok tree.new) }
    ensures taken { IfOk result (λ left. IsTaken edit left (pointed path.now tree.old)) }
    ensures size { IfOk result (IsEdited edit (length path.now) tree.old tree.new) }
    ensures refused { IfErr result (RefusedBy (edited_at path.now edit tree.old)) }
{
    match path {
        [] => edit_root(tree, edit),
        [first, rest @ ..] => edit_at(alloc, tree, first, rest, edit),
    }
}

// Another value takes the place of the whole document.
fn edit_root(tree: &mut Draft, edit: Edit) -> Result<Option<Draft>, Refusal>
    ensures done { IfOk result (λ _. edited_at [] edit tree.old ≡ Ok tree.new) }
    ensures taken { IfOk result (λ left. IsTaken edit left (Some tree.old)) }
    ensures size { IfOk result (IsEdited edit 0 tree.old tree.new) }
    ensures refused { IfErr result (RefusedBy (edited_at [] edit tree.old)) }
{
    match edit {
        Edit::Add(value) | Edit::Replace(value) => Ok(Some(mem::replace(tree, value))),
        Edit::Remove => Err(Refusal::Cause(ApplyCause::NoParent)),
    }
}

// Makes an edit at the target location of these tokens.
#[cycle(edit_at)]
fn edit_at(
    alloc: Global,
    tree: &mut Draft,
    first: &Text,
    rest: &[Text],
    edit: Edit,
) -> Result<Option<Draft>, Refusal>
    ensures done { IfOk result (λ _. edited first.now rest.now edit tree.old ≡ Ok tree.new) }
    ensures taken { IfOk result (λ left. IsTaken edit left
        (pointed (first.now ∷ rest.now) tree.old)) }
    ensures size { IfOk result (IsEdited edit (1 + length rest.now) tree.old tree.new) }
    ensures refused { IfErr result (RefusedBy (edited first.now rest.now edit tree.old)) }
{
    match rest {
        [] => edit_in(alloc, tree, first.as_str(), edit),
        [next, after @ ..] => match &mut tree.node {
            DraftNode::Items(list) => edit_below_items(alloc, list, first, next, after, edit),
            DraftNode::Members(list) => edit_below_members(alloc, list, first, next, after, edit),
            _ => Err(Refusal::Cause(edit.missing())),
        },
    }
}

// The same where the parent of the target location is below an item of an array.
#[cycle(edit_at)]
fn edit_below_items(
    alloc: Global,
    list: &mut Chunks,
    first: &Text,
    next: &Text,
    after: &[Text],
    edit: Edit,
) -> Result<Option<Draft>, Refusal>
    ensures done { IfOk result (λ _. edited first.now (next.now ∷ after.now) edit
        (items (kids_of list.old)) ≡ Ok (items (kids_of list.new))) }
    ensures taken { IfOk result (λ left. IsTaken edit left
        (pointed (first.now ∷ next.now ∷ after.now) (items (kids_of list.old)))) }
    ensures size { IfOk result (IsEdited edit (2 + length after.now) (items (kids_of list.old))
        (items (kids_of list.new))) }
    ensures refused { IfErr result (RefusedBy (edited first.now (next.now ∷ after.now) edit
        (items (kids_of list.old)))) }
{
    match find(&list.parts, first.as_str())? {
        Some(place) => {
            let part = &mut list.parts[place.part];
            edit_at(alloc, &mut part.all[place.offset], next, after, edit)
        }
        None => Err(Refusal::Cause(edit.missing())),
    }
}

// The same where it is below a member of an object.
#[cycle(edit_at)]
fn edit_below_members(
    alloc: Global,
    list: &mut DraftMembers,
    first: &Text,
    next: &Text,
    after: &[Text],
    edit: Edit,
) -> Result<Option<Draft>, Refusal>
    ensures done { IfOk result
        (λ _. edited first.now (next.now ∷ after.now) edit (members (fields_of list.old)) ≡ Ok
        (members (fields_of list.new))) }
    ensures taken { IfOk result (λ left. IsTaken edit left
        (pointed (first.now ∷ next.now ∷ after.now) (members (fields_of list.old)))) }
    ensures size { IfOk result (IsEdited edit (2 + length after.now) (members (fields_of list.old))
        (members (fields_of list.new))) }
    ensures refused { IfErr result
        (RefusedBy (edited first.now (next.now ∷ after.now) edit (members (fields_of list.old)))) }
{
    match find_member(&list.parts, first.as_str()) {
        Ok(place) => {
            let part = &mut list.parts[place.part];
            let member = &mut part.all[place.offset];
            edit_at(alloc, &mut member.value, next, after, edit)
        }
        Err(_) => Err(Refusal::Cause(edit.missing())),
    }
}

// Makes an edit of a container under one token.
fn edit_in(
    alloc: Global,
    tree: &mut Draft,
    token: &str,
    edit: Edit,
) -> Result<Option<Draft>, Refusal>
    ensures done { IfOk result (λ _. change_of edit token.now tree.old ≡ Ok tree.new) }
    ensures taken { IfOk result (λ left. IsTaken edit left (child_of token.now tree.old)) }
    ensures size { IfOk result (IsEdited edit 1 tree.old tree.new) }
    ensures refused { IfErr result (RefusedBy (change_of edit token.now tree.old)) }
{
    match &mut tree.node {
        DraftNode::Items(list) => edit_item(alloc, list, token, edit),
        DraftNode::Members(list) => edit_member(alloc, list, token, edit),
        _ => Err(Refusal::Cause(edit.missing())),
    }
}

fn edit_item(
    alloc: Global,
    list: &mut Chunks,
    token: &str,
    edit: Edit,
) -> Result<Option<Draft>, Refusal>
    ensures done { IfOk result (λ _. change_of edit token.now (items (kids_of list.old)) ≡ Ok
        (items (kids_of list.new))) }
    ensures taken { IfOk result (λ left. IsTaken edit left
        (child_of token.now (items (kids_of list.old)))) }
    ensures size { IfOk result (IsEdited edit 1 (items (kids_of list.old))
        (items (kids_of list.new))) }
    ensures refused { IfErr result (RefusedBy
        (change_of edit token.now (items (kids_of list.old)))) }
{
    match edit {
        Edit::Add(value) => {
            add_item(alloc, list, token, value)?;
            Ok(None)
        }
        Edit::Remove => Ok(Some(remove_item(list, token)?)),
        Edit::Replace(value) => Ok(Some(replace_item(list, token, value)?)),
    }
}

fn add_item(alloc: Global, list: &mut Chunks, token: &str, value: Draft) -> Result<(), Refusal>
    ensures done { OnOk result (added_in value token.now (items (kids_of list.old))
        ≡ Ok (items (kids_of list.new))) }
    ensures size { OnOk result (IsEdited (Edit.Add value) 1 (items (kids_of list.old))
        (items (kids_of list.new)) None) }
    ensures refused { IfErr result (RefusedBy
        (added_in value token.now (items (kids_of list.old)))) }
{
    match place_of(token, list.len()?) {
        Some(at) => {
            list.insert(alloc, at, value)?;
            Ok(())
        }
        None => Err(Refusal::Cause(ApplyCause::BadIndex)),
    }
}

// Takes an item out, and answers it.
fn remove_item(list: &mut Chunks, token: &str) -> Result<Draft, Refusal>
    ensures done { OnOk result (removed_in token.now (items (kids_of list.old))
        ≡ Ok (items (kids_of list.new))) }
    ensures taken { IfOk result (λ left. child_of token.now (items (kids_of list.old))
        ≡ Some left) }
    ensures size { IfOk result (λ left.
        IsEdited Edit.Remove 1 (items (kids_of list.old)) (items (kids_of list.new)) (Some left)) }
    ensures refused { IfErr result (RefusedBy (removed_in token.now (items (kids_of list.old)))) }
{
    match find(&list.parts, token)? {
        Some(place) => Ok(remove_at(&mut list.parts, place)),
        None => Err(Refusal::Cause(ApplyCause::NoValue)),
    }
}

// Puts a value in the place of an item, and answers the item.
fn replace_item(list: &mut Chunks, token: &str, value: Draft) -> Result<Draft, Refusal>
    ensures done { OnOk result (replaced_in value token.now (items (kids_of list.old)) ≡ Ok
        (items (kids_of list.new))) }
    ensures size { IfOk result (λ left. IsEdited (Edit.Replace value) 1 (items (kids_of list.old))
        (items (kids_of list.new)) (Some left)) }
    ensures refused { IfErr result (RefusedBy
        (replaced_in value token.now (items (kids_of list.old)))) }
{
    match find(&list.parts, token)? {
        Some(place) => Ok(replace_at(&mut list.parts, place, value)),
        None => Err(Refusal::Cause(ApplyCause::NoValue)),
    }
}

// The place before which an item of an array is inserted.
fn place_of(token: &str, count: usize) -> Option<usize>
    ensures { result ≡ place_of token.now count }
{
    if token == "-" {
        return Some(count);
    }
    match read_index(token) {
        Some(index) if index <= count => Some(index),
        _ => None,
    }
}

// Puts a value at a member, and answers the one that was there.
fn put_member(
    alloc: Global,
    list: &mut DraftMembers,
    token: &str,
    value: Draft,
) -> Result<Option<Draft>, OutOfMemory>
    ensures put { OnOk result (fields_of list.new ≡ put token.now value (fields_of list.old)) }
    ensures old { IfOk result (λ old. old ≡ lookup token.now (fields_of list.old)) }
    ensures sorted { IfOk result (λ _. AreSorted list.old) }
{
    let Ok(name) = Text::from_str(alloc, token) else {
        drop(value);
        return Err(OutOfMemory);
    };
    list.put(alloc, name, value)
}

fn edit_member(
    alloc: Global,
    list: &mut DraftMembers,
    token: &str,
    edit: Edit,
) -> Result<Option<Draft>, Refusal>
    ensures done { IfOk result (λ _. change_of edit token.now (members (fields_of list.old)) ≡ Ok
        (members (fields_of list.new))) }
    ensures taken { IfOk result (λ left. IsTaken edit left
        (child_of token.now (members (fields_of list.old)))) }
    ensures size { IfOk result (IsEdited edit 1 (members (fields_of list.old))
        (members (fields_of list.new))) }
    ensures refused { IfErr result (RefusedBy
        (change_of edit token.now (members (fields_of list.old)))) }
{
    match edit {
        Edit::Add(value) => Ok(put_member(alloc, list, token, value)?),
        Edit::Remove => match list.take(token) {
            Some(value) => Ok(Some(value)),
            None => Err(Refusal::Cause(ApplyCause::NoValue)),
        },
        Edit::Replace(value) => match list.get(token) {
            Some(_) => Ok(put_member(alloc, list, token, value)?),
            None => Err(Refusal::Cause(ApplyCause::NoValue)),
        },
    }
}
