ghost use Rattle.std.specs.Prelude.{◌≡◌, ◌↔◌, [], IsTrue, option_map, option_and_then};
ghost use Rattle.path_shape.specs.Agreement.{Agrees, Keeps};
ghost use Rattle.path_shape.specs.Beginning.{root_class};
ghost use Rattle.path_shape.specs.Forms.{left_root};
ghost use Rattle.path_shape.specs.Passing.{past};
ghost use Rattle.path_shape.specs.Walk.{form, patterns_in, FitsSpot};

use crate::live::{Live, Way, read_as};
use crate::part::Part;
use crate::shape::{FieldClass, Shape, ShapeEntry};
use crate::spot::Spot;
use crate::walk::fits;
use base_types::json::Tree;

/// Whether an answered object is the old one with what was asked, and with what the server may set or fill in,
/// field by field. A tree that isn't an object counts as an empty one. It takes no memory.
pub fn agrees(shape: &Shape, old: Option<&Tree>, asked: &Tree, answered: &Tree) -> bool
    ensures { IsTrue result ↔ Agrees shape.now (option_map (λ t. t.now) old.entry) asked.now
        answered.now }
{
    let spot = Spot {
        had: old.is_some(),
        old: root_of(old),
        asked: Part::root(asked),
        answered: Part::root(answered),
    };
    fits_all(shape.entries.as_slice(), shape.root, false, spot)
}

/// Whether an answered object is the old one but for the marks of a deletion, its finalizers, its generation and
/// what the server owns (Kubernetes "Finalizers"). It takes no memory.
pub fn keeps(shape: &Shape, old: &Tree, answered: &Tree) -> bool
    ensures { IsTrue result ↔ Keeps shape.now old.now answered.now }
{
    let spot = Spot {
        had: true,
        old: Part::root(old),
        asked: Part::root(old),
        answered: Part::root(answered),
    };
    fits_all(shape.entries.as_slice(), shape.root, true, spot)
}

fn root_of<'a>(tree: Option<&'a Tree>) -> Part<'a>
    ensures { form result ≡ option_and_then (λ t. left_root t.now) tree.entry }
{
    match tree {
        Some(tree) => Part::root(tree),
        None => Part::Absent,
    }
}

// The class of the root: that of the first entry for it, or else the shape's.
fn root_class(entries: &[ShapeEntry], root: FieldClass, unasked: bool) -> FieldClass
    ensures { result ≡ root_class unasked entries.now root }
{
    for entry in entries {
        if entry.path.is_empty() {
            return read_as(unasked, entry.class);
        }
    }
    read_as(unasked, root)
}

// Whether all parts fit, from the root on.
fn fits_all(entries: &[ShapeEntry], root: FieldClass, unasked: bool, spot: Spot<'_>) -> bool
    ensures { IsTrue result ↔ FitsSpot (root_class unasked entries.now root) (patterns_in
        (past unasked entries.now [])) spot.entry }
{
    let way = Way::root();
    let live = Live {
        unasked,
        entries,
        way: &way,
    };
    fits(live, root_class(entries, root, unasked), spot)
}
