ghost use Rattle.std.specs.Prelude.{IfErr, IfOk};
ghost use Rattle.history_model.specs.Checking.{IsVerified};
ghost use Rattle.serial_machine.specs.Checks.{IsPlacementFault};
ghost use Rattle.log_context.specs.Histories.{history_of};

use crate::decisions::first_undecided;
use crate::fault::{CheckFault, WrongCode};
use crate::lines::first_difference;
use crate::places::first_misplaced;
use crate::standing::first_standing;
use crate::steps::steps_fault;
use base_types::{Placement, Reason};
use log_context::Context;
use std::alloc::Global;

/// Runs through a placement by the serial API machine, and tells the first fault: the least line that the log or the
/// placement lacks or whose words differ; the least line whose event no placement mends; the least line with a place
/// that its event can't have; the first step that isn't allowed; the least line whose decision isn't given.
pub fn check(alloc: Global, context: &Context, placement: &Placement) -> Result<(), CheckFault>
    ensures verified { IfOk result (λ done. IsVerified (history_of context.now) placement.now) }
    ensures wrong { IfErr result (IsPlacementFault (history_of context.now) placement.now) }
{
    let lines = placement.as_slice();
    if let Some(line) = first_difference(context, lines) {
        return Err(CheckFault::Wrong {
            line,
            code: WrongCode::V1,
        });
    }
    if let Some((line, reason)) = first_standing(context) {
        return Err(CheckFault::Wrong {
            line,
            code: WrongCode::Judged(reason),
        });
    }
    if let Some(line) = first_misplaced(context, lines) {
        return Err(CheckFault::Wrong {
            line,
            code: WrongCode::V2,
        });
    }
    if let Some((line, reason)) = steps_fault(alloc, context, lines)? {
        return Err(CheckFault::Wrong {
            line,
            code: WrongCode::Judged(reason),
        });
    }
    if let Some(line) = first_undecided(context, lines) {
        return Err(CheckFault::Wrong {
            line,
            code: WrongCode::Judged(Reason::U14),
        });
    }
    Ok(())
}
