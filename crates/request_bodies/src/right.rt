ghost use Rattle.std.specs.Prelude.{◌≡◌, ◌↔◌, true, IfOk, Option, option_map};
ghost use Rattle.base_types.specs.Meaning.{Meaning};
ghost use Rattle.audit_event.specs.declared.event.Event.{Event as AuditEvent};
ghost use Rattle.setup_file.specs.declared.setup.Setup.{Setup as Given};
ghost use Rattle.request_bodies.specs.Right.{IsBodyRight, does_keep_all, is_asked, is_body_right};

use crate::agreeing::{does_agree, does_keep};
use crate::asked::{Asking, asked_of};
use crate::requests::shape_of;
use audit_event::Event;
use base_types::OutOfMemory;
use base_types::json::Tree;
use path_shape::Shape;
use setup_file::{Setup, tracked_of};
use std::alloc::Global;

/// The test of bodies that computes is the relation.
pub fn body_law()
    ensures { (setup : Given) (event : AuditEvent) (answered : Meaning) (old : Option Meaning)
        → (is_body_right setup event answered old ≡ true) ↔ IsBodyRight setup event answered old }
{}

fn does_keep_all(shape: &Shape, old: Option<&Tree>, answered: &Tree) -> bool
    ensures { result
        ≡ does_keep_all shape.now (option_map (λ tree. tree.now) old.entry) answered.now }
{
    match old {
        Some(old) => does_keep(shape, old, answered),
        None => true,
    }
}

fn is_asked(shape: &Shape, old: Option<&Tree>, answered: &Tree, asking: &Asking) -> bool
    ensures { result
        ≡ is_asked shape.now (option_map (λ tree. tree.now) old.entry) answered.now asking.now }
{
    match asking {
        Asking::NotJudged => true,
        Asking::Wrong => false,
        Asking::Whole(asked) => does_agree(shape, old, asked, answered),
        Asking::Finalizing => does_keep_all(shape, old, answered),
    }
}

/// Whether the answer to a write, in stored form, is what its body asked of the object before, or of none. So it is
/// where nothing is known of the body, or of the resource that the write is for. The old object is copied for a patch
/// alone.
pub fn is_body_right(
    alloc: Global,
    setup: &Setup,
    event: &Event,
    answered: &Tree,
    before: Option<&Tree>,
) -> Result<bool, OutOfMemory>
    ensures { IfOk result (λ right. right ≡ is_body_right setup.now event.now answered.now
        (option_map (λ tree. tree.now) before.entry)) }
{
    let Some(tracked) = tracked_of(setup, &event.attrs) else {
        return Ok(true);
    };
    let Some(shape) = shape_of(tracked, &event.attrs) else {
        return Ok(true);
    };
    let asking = asked_of(alloc, tracked, event, before)?;
    Ok(is_asked(shape, before, answered, &asking))
}
