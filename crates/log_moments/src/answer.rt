ghost use Rattle.std.specs.Prelude.{◌≡◌, IfOk};
ghost use Rattle.history_model.specs.Histories.{History};
ghost use Rattle.log_moments.specs.Answers.{IsStrictAnswer, answer_for, lines_of};
ghost use Rattle.log_context.specs.Histories.{history_of};

use crate::things::things_of;
use base_types::{Listed, Moment, OutOfMemory};
use log_context::Context;
use std::alloc::Global;
use strict_order::{Moments, Thing, settle_moments};

/// The line of a thing, and a moment of its event.
#[derive(Clone, Copy, PartialEq, Eq)]
pub struct LineMoment {
    pub line: u64,
    pub moment: Moment,
}

/// Moments by line.
pub type LineMoments = Listed<LineMoment>;

/// Whether all things of a log can stand in one list along which neither moments nor revisions fall.
#[derive(Drop)]
pub enum StrictAnswer {
    /// The things' moments in such a list, each the first that its thing can have.
    Strict(LineMoments),
    /// The lines of two things: by the revisions that they show the first stands before the second, and by their
    /// moments only after it.
    Crossed { first: u64, second: u64 },
}

fn lines_of(alloc: Global, things: &[Thing], moments: &[Moment]) -> Result<LineMoments, OutOfMemory>
    ensures { IfOk result (λ lines. lines ≡ lines_of things.now moments.now) }
{
    let mut lines = LineMoments::new(alloc);
    for (thing, moment) in things.iter().zip(moments) {
        lines.push(LineMoment {
            line: thing.line,
            moment: *moment,
        })?;
    }
    Ok(lines)
}

fn answer_for(
    alloc: Global,
    things: &[Thing],
    moments: Moments,
) -> Result<StrictAnswer, OutOfMemory>
    ensures { IfOk result (λ answer. answer ≡ answer_for things.now moments) }
{
    match moments {
        Moments::Found(moments) => Ok(StrictAnswer::Strict(lines_of(
            alloc,
            things,
            moments.as_slice(),
        )?)),
        Moments::Crossed { first, second } => Ok(StrictAnswer::Crossed { first, second }),
    }
}

/// Settles a moment for each thing of a context's log, or finds two that can't stand in one list.
pub fn strict_answer(alloc: Global, context: &Context) -> Result<StrictAnswer, OutOfMemory>
    ensures { IfOk result (IsStrictAnswer (history_of context.now)) }
{
    let things = things_of(alloc, context)?;
    let moments = settle_moments(alloc, things.as_slice())?;
    answer_for(alloc, things.as_slice(), moments)
}

/// A log has one strict answer.
pub fn one_strict_answer_law()
    ensures { (h : History) (a b : StrictAnswer) → IsStrictAnswer h a → IsStrictAnswer h b → a ≡ b }
{}
