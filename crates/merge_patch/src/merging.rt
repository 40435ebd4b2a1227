ghost use Rattle.std.specs.Prelude.{◌≡◌, ◌++◌, ◌≤◌, ℕ, List, IfOk, OnOk, IsTrue, ◌↔◌};
ghost use Rattle.std.specs.Prelude.{option_map, drop, length};
ghost use Rattle.std.specs.Ordering.{nat_cmp};
ghost use Rattle.std.specs.Cmp.Lexicographic.{slice_cmp};
ghost use Rattle.std.specs.declared.cmp.Ordering.TheVariants.{Less};
ghost use Rattle.base_types.specs.Meaning.{fields_of};
ghost use Rattle.base_types.specs.Names.{AreSorted};
ghost use Rattle.merge_patch.specs.Merging.{object_of, merged, merged_fields, changed};
ghost use Rattle.merge_patch.specs.Walking.{AllBelow, HasWalkedTo};
ghost use Rattle.merge_patch.specs.Walking.{StartsNotBelow, IsFirstValue, behind};

use base_types::json::{Member, MemberList, Node, Tree, copy};
use base_types::{OutOfMemory, Text};
use std::alloc::Global;

/// The target after a merge patch (RFC 7386, now RFC 7396, section 2). It costs one walk over
/// target and patch.
#[cycle(merge)]
pub fn merge(alloc: Global, target: Option<&Tree>, patch: &Tree) -> Result<Tree, OutOfMemory>
    ensures { IfOk result (λ made. made ≡ merged (option_map (λ t. t.now) target.entry) patch.now) }
{
    match &patch.node {
        Node::Members(changes) => {
            let list = merge_members(alloc, members_of(target), changes)?;
            Ok(Tree {
                node: Node::Members(list),
            })
        }
        _ => copy(alloc, patch),
    }
}

// The members of a target, none where it is no object.
fn members_of<'a>(target: Option<&'a Tree>) -> &'a [Member]
    ensures members { fields_of result.now ≡ object_of (option_map (λ t. t.now) target.entry) }
    ensures sorted { AreSorted result.now }
{
    match target {
        Some(tree) => match &tree.node {
            Node::Members(list) => list.all.as_slice(),
            _ => &[],
        },
        None => &[],
    }
}

// The members after those of a patch. Both stand in order, so one walk over both serves.
#[cycle(merge)]
fn merge_members(
    alloc: Global,
    old: &[Member],
    changes: &MemberList,
) -> Result<MemberList, OutOfMemory>
    requires { AreSorted old.now }
    ensures { IfOk result (λ made. fields_of made ≡ merged_fields (fields_of old.now)
        (fields_of changes.now)) }
{
    let mut all = Vec::new(alloc);
    let mut at = 0;
    for change in &changes.all {
        at = merge_member(alloc, &mut all, old, at, change)?;
    }
    copy_rest(alloc, &mut all, old, at)?;
    Ok(MemberList { all })
}

// One name and value of the patch: the members before it are copied, and its own is put behind
// them. `all` holds the members up to those from `at` on.
#[cycle(merge)]
fn merge_member(
    alloc: Global,
    all: &mut Vec<Member>,
    old: &[Member],
    at: usize,
    change: &Member,
) -> Result<usize, OutOfMemory>
    requires walked { HasWalkedTo at all.old.items old.now }
    requires below { AllBelow change.now.0 all.old.items }
    ensures walked { IfOk result (λ next. HasWalkedTo next all.new.items old.now) }
    ensures merged { IfOk result (λ next. fields_of (all.new.items ++ drop next old.now)
        ≡ changed change.now (fields_of (all.old.items ++ drop at old.now))) }
    ensures below { OnOk result ((name : List ℕ) → slice_cmp nat_cmp change.now.0 name ≡ Less
        → AllBelow name all.new.items) }
{
    let at = copy_below(alloc, all, old, at, &change.name)?;
    let (value, next) = take_named(old, at, &change.name);
    if change.value.is_null() {
        return Ok(next);
    }
    let name = change.name.clone()?;
    let value = merge(alloc, value, &change.value)?;
    all.push(Member { name, value })?;
    Ok(next)
}

// The members from `at` on that stand before a name are copied. The answer is the place of the
// next one.
fn copy_below(
    alloc: Global,
    all: &mut Vec<Member>,
    old: &[Member],
    at: usize,
    name: &Text,
) -> Result<usize, OutOfMemory>
    requires { at ≤ length old.now }
    ensures within { IfOk result (λ next. next ≤ length old.now) }
    ensures kept { IfOk result (λ next. all.new.items ++ drop next old.now
        ≡ all.old.items ++ drop at old.now) }
    ensures below { AllBelow name.now all.old.items → OnOk result
        (AllBelow name.now all.new.items) }
    ensures next { IfOk result (λ next. StartsNotBelow name.now (drop next old.now)) }
{
    let mut next = at;
    while next < old.len() && is_before(&old[next], name) {
        all.push(copy_member(alloc, &old[next])?)?;
        next += 1;
    }
    Ok(next)
}

fn is_before(member: &Member, name: &Text) -> bool
    ensures { IsTrue result ↔ (slice_cmp nat_cmp member.now.0 name.now ≡ Less) }
{
    member.name < *name
}

fn copy_rest(
    alloc: Global,
    all: &mut Vec<Member>,
    old: &[Member],
    at: usize,
) -> Result<(), OutOfMemory>
    requires { at ≤ length old.now }
    ensures { OnOk result (all.new.items ≡ all.old.items ++ drop at old.now) }
{
    for next in at..old.len() {
        all.push(copy_member(alloc, &old[next])?)?;
    }
    Ok(())
}

fn copy_member(alloc: Global, member: &Member) -> Result<Member, OutOfMemory>
    ensures { IfOk result (λ made. made ≡ member.now) }
{
    Ok(Member {
        name: member.name.clone()?,
        value: copy(alloc, &member.value)?,
    })
}

// The value of the member at a place, where it has the name, and the place behind it.
fn take_named<'a>(old: &'a [Member], at: usize, name: &Text) -> (Option<&'a Tree>, usize)
    requires { at ≤ length old.now }
    ensures value { IsFirstValue name.now (drop at old.now) (option_map (λ t. t.now) result.0) }
    ensures within { result.1 ≤ length old.now }
    ensures next { drop result.1 old.now ≡ behind (option_map (λ t. t.now) result.0)
        (drop at old.now) }
{
    if at < old.len() {
        let member = &old[at];
        if member.name == *name {
            return (Some(&member.value), at + 1);
        }
    }
    (None, at)
}
