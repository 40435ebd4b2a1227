ghost use Rattle.std.specs.Prelude.{◌≡◌, ◌↔◌, ℕ, IsTrue, IsSome, List};
ghost use Rattle.base_types.specs.Meaning.{kids_of, fields_of, items};
ghost use Rattle.base_types.specs.Parts.{lookup};
ghost use Rattle.base_types.specs.Pointers.{child_of};
ghost use Rattle.path_shape.specs.Forms.{child_in};
ghost use Rattle.path_shape.specs.Passing.{past_of};
ghost use Rattle.path_shape.specs.Walk.{whole, patterns_in, FitsSpot, FitsUnder, IsDone};

use crate::live::{Live, Way, going_past};
use crate::part::Part;
use crate::shape::FieldClass;
use crate::spot::{Spot, fits_closed, fits_open};
use base_types::json::{MemberList, Node, Tree, Trees};
use itoa::Buffer;

/// Whether a spot and all below it fit their classes, by the patterns that go past its path. It goes no deeper
/// than the trees do, however many patterns there are.
#[cycle(fits)]
pub fn fits(live: Live<'_>, class: FieldClass, spot: Spot<'_>) -> bool
    ensures { IsTrue result ↔ FitsSpot class (patterns_in (past_of live.entry)) spot.entry }
{
    if !live.is_any() {
        return fits_closed(class, spot);
    }
    if !fits_open(class, spot) {
        return false;
    }
    if !fits_each(spot.old, Part::Absent, Part::Absent, live, class, spot) {
        return false;
    }
    if !fits_each(spot.asked, spot.old, Part::Absent, live, class, spot) {
        return false;
    }
    fits_each(spot.answered, spot.old, spot.asked, live, class, spot)
}

// Whether each child of a part that two others lack fits.
#[cycle(fits)]
fn fits_each(
    part: Part<'_>,
    done: Part<'_>,
    done_too: Part<'_>,
    live: Live<'_>,
    class: FieldClass,
    spot: Spot<'_>,
) -> bool
    ensures sound { IsTrue result → (name : List ℕ) → IsSome (child_in name (whole part.entry))
        → IsDone done.entry done_too.entry class (past_of live.entry) spot.entry name }
    ensures complete { ((name : List ℕ) → FitsUnder class (past_of live.entry) spot.entry name)
        → IsTrue result }
{
    match part {
        Part::Absent => true,
        Part::Member(tree) => fits_children(tree, done, done_too, live, class, spot),
        Part::Item(tree) => fits_children(tree, done, done_too, live, class, spot),
    }
}

#[cycle(fits)]
fn fits_children(
    tree: &Tree,
    done: Part<'_>,
    done_too: Part<'_>,
    live: Live<'_>,
    class: FieldClass,
    spot: Spot<'_>,
) -> bool
    ensures sound { IsTrue result → (name : List ℕ) → IsSome (child_of name tree.now)
        → IsDone done.entry done_too.entry class (past_of live.entry) spot.entry name }
    ensures complete { ((name : List ℕ) → FitsUnder class (past_of live.entry) spot.entry name)
        → IsTrue result }
{
    match &tree.node {
        Node::Items(list) => fits_items(list, done, done_too, live, class, spot),
        Node::Members(list) => fits_members(list, done, done_too, live, class, spot),
        _ => true,
    }
}

#[cycle(fits)]
fn fits_items(
    list: &Trees,
    done: Part<'_>,
    done_too: Part<'_>,
    live: Live<'_>,
    class: FieldClass,
    spot: Spot<'_>,
) -> bool
    ensures sound { IsTrue result → (name : List ℕ) → IsSome
        (child_of name (items (kids_of list.now)))
        → IsDone done.entry done_too.entry class (past_of live.entry) spot.entry name }
    ensures complete { ((name : List ℕ) → FitsUnder class (past_of live.entry) spot.entry name)
        → IsTrue result }
{
    let mut buffer = Buffer::new();
    for index in 0..list.all.len() {
        let token = buffer.format(index);
        if !fits_unless_done(token, done, done_too, live, class, spot) {
            return false;
        }
    }
    true
}

#[cycle(fits)]
fn fits_members(
    list: &MemberList,
    done: Part<'_>,
    done_too: Part<'_>,
    live: Live<'_>,
    class: FieldClass,
    spot: Spot<'_>,
) -> bool
    ensures sound { IsTrue result → (name : List ℕ) → IsSome (lookup name (fields_of list.now))
        → IsDone done.entry done_too.entry class (past_of live.entry) spot.entry name }
    ensures complete { ((name : List ℕ) → FitsUnder class (past_of live.entry) spot.entry name)
        → IsTrue result }
{
    for member in &list.all {
        let token = member.name.as_str();
        if !fits_unless_done(token, done, done_too, live, class, spot) {
            return false;
        }
    }
    true
}

#[cycle(fits)]
fn fits_unless_done(
    token: &str,
    done: Part<'_>,
    done_too: Part<'_>,
    live: Live<'_>,
    class: FieldClass,
    spot: Spot<'_>,
) -> bool
    ensures sound { IsTrue result → IsDone done.entry done_too.entry class (past_of live.entry)
        spot.entry token.now }
    ensures complete { FitsUnder class (past_of live.entry) spot.entry token.now → IsTrue result }
{
    if done.has_child(token) {
        return true;
    }
    if done_too.has_child(token) {
        return true;
    }
    let way = Way::below(token, live.way);
    let under = Live {
        unasked: live.unasked,
        entries: going_past(live.entries, &way),
        way: &way,
    };
    fits(under, live.class_under(token, class), spot.child(token))
}
