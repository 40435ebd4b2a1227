ghost use Rattle.std.specs.Prelude.{[], List, IfNone, IfOk, IfSome, All, map};
ghost use Rattle.base_types.specs.Placements.{RisesByLine};
ghost use Rattle.history_model.specs.Checking.{AreAllowed, EachStep, IsFitting, IsStepFault};
ghost use Rattle.history_model.specs.Machine as model;
ghost use Rattle.history_model.specs.Machine.{Runs, after_all, snapshot_map};
ghost use Rattle.serial_machine.specs.Held.{HasMade, HasRooms};
ghost use Rattle.serial_machine.specs.Ordered.{row_step};
ghost use Rattle.serial_machine.specs.Running.{IsFirstForbidden};
ghost use Rattle.serial_machine.specs.Stepping.{IsOfHistory, IsVerdictOn, step_of};
ghost use Rattle.log_context.specs.Histories.{history_of};
ghost use Rattle.log_context.specs.Uses.{AreUsesOf};

use crate::machine::Machine;
use crate::rows::{Row, rows_of};
use crate::scene::Scene;
use crate::step::Step;
use crate::verdicts::verdict;
use base_types::{OutOfMemory, PlacedLine, Reason};
use log_context::Context;
use std::alloc::Global;

// Why the step isn't allowed on the objects that the machine holds.
fn step_verdict(
    context: &Context,
    machine: &Machine,
    step: Step<'_>,
) -> Result<Option<Reason>, OutOfMemory>
    requires known { IsOfHistory (history_of context.now) (step_of step) }
    requires rooms { HasRooms (history_of context.now) machine.now.objects }
    requires uses { AreUsesOf (history_of context.now) machine.now.uses }
    ensures { IfOk result (λ found. (done : List model.Step)
        → HasMade (history_of context.now) machine.now done
        → IsVerdictOn (history_of context.now)
        (after_all (snapshot_map (history_of context.now)) done) (step_of step.entry) found) }
{
    let scene = Scene {
        context,
        machine,
        upto: machine.place,
    };
    verdict(scene, step)
}

// Makes one step after another, up to the first that isn't allowed.
fn run(
    context: &Context,
    machine: Machine,
    rows: &[Row<'_>],
) -> Result<Option<(u64, Reason)>, OutOfMemory>
    requires made { HasMade (history_of context.now) machine [] }
    requires known { All (λ row. IsOfHistory (history_of context.now) (row_step row)) rows.now }
    ensures some { IfOk result (λ found. IfSome found
        (λ fault. IsFirstForbidden (history_of context.now) rows.now fault.0 fault.1)) }
    ensures none { IfOk result (λ found. IfNone found
        (Runs (history_of context.now) EachStep (snapshot_map (history_of context.now))
        (map row_step rows.now))) }
{
    let mut machine = machine;
    for row in rows {
        if let Some(code) = step_verdict(context, &machine, row.step)? {
            return Ok(Some((row.turn.line, code)));
        }
        machine.make(row.step);
    }
    Ok(None)
}

/// The line and the least code of the first step that isn't allowed.
pub fn steps_fault(
    alloc: Global,
    context: &Context,
    lines: &[PlacedLine],
) -> Result<Option<(u64, Reason)>, OutOfMemory>
    requires rising { RisesByLine lines.now }
    requires fitting { IsFitting (history_of context.now) lines.now }
    ensures some { IfOk result (λ found. IfSome found
        (λ fault. IsStepFault (history_of context.now) lines.now fault.0 fault.1)) }
    ensures none { IfOk result (λ found. IfNone found
        (AreAllowed (history_of context.now) lines.now)) }
{
    let rows = rows_of(alloc, context, lines)?;
    let machine = Machine::start(alloc, context)?;
    run(context, machine, &rows)
}
