ghost use Rattle.std.specs.Prelude.{◌≡◌, ◌↔◌, true, Option, option_map};
ghost use Rattle.base_types.specs.Meaning.{Meaning};
ghost use Rattle.path_shape.specs.Agreement.{Agrees, Keeps};
ghost use Rattle.path_shape.specs.declared.shape.Shape.{Shape as Fields};
ghost use Rattle.request_bodies.specs.Agreeing.{does_agree, does_keep};

use base_types::json::Tree;
use path_shape::{Shape, agrees, keeps};

/// The tests of agreement that compute are the relations: it is enough to look at the root and at each child that one
/// of the trees has.
pub fn agreement_law()
    ensures agrees { (shape : Fields) (old : Option Meaning) (asked answered : Meaning)
        → (does_agree shape old asked answered ≡ true) ↔ Agrees shape old asked answered }
    ensures keeps { (shape : Fields) (old answered : Meaning)
        → (does_keep shape old answered ≡ true) ↔ Keeps shape old answered }
{}

/// Whether an answered object is the old one with what was asked, and with what the server may set or fill in.
pub fn does_agree(shape: &Shape, old: Option<&Tree>, asked: &Tree, answered: &Tree) -> bool
    ensures { result
        ≡ does_agree shape.now (option_map (λ tree. tree.now) old.entry) asked.now answered.now }
{
    agrees(shape, old, asked, answered)
}

/// Whether an answered object is the old one but for what a delete changes.
pub fn does_keep(shape: &Shape, old: &Tree, answered: &Tree) -> bool
    ensures { result ≡ does_keep shape.now old.now answered.now }
{
    keeps(shape, old, answered)
}
