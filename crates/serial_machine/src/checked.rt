ghost use Rattle.std.specs.Prelude.{◌≡◌, ◌∷◌, [], List, codes, decimal, IfOk, string_bytes};
ghost use Rattle.base_types.specs.declared.verdict.placed.PlacedLine.{PlacedLine};
ghost use Rattle.history_model.specs.Histories.{History};
ghost use Rattle.history_model.specs.Readable.{IsReadable};
ghost use Rattle.serial_machine.specs.Checks.{IsChecked};
ghost use Rattle.serial_machine.specs.declared.checked.Checked.{Checked};
ghost use Rattle.serial_machine.specs.Texts.{checked_text, code_text};
ghost use Rattle.verdict_text.specs.Words.{ended, spaced};
ghost use Rattle.log_context.specs.Histories.{history_of};

use crate::checking::check;
use crate::fault::{CheckFault, WrongCode};
use base_types::{Bytes, OutOfMemory, Placement};
use log_context::Context;
use std::alloc::{AllocError, Global};

/// What a placement comes to that is checked.
#[derive(Clone, Copy)]
pub enum Checked {
    Holds,
    /// The first fault.
    Wrong { line: u64, code: WrongCode },
}

/// Checks a placement.
pub fn verify(
    alloc: Global,
    context: &Context,
    placement: &Placement,
) -> Result<Checked, OutOfMemory>
    ensures { IfOk result (IsChecked (history_of context.now) placement.now) }
{
    match check(alloc, context, placement) {
        Ok(()) => Ok(Checked::Holds),
        Err(CheckFault::Wrong { line, code }) => Ok(Checked::Wrong { line, code }),
        Err(CheckFault::OutOfMemory) => Err(OutOfMemory),
    }
}

fn wrong_text(alloc: Global, line: u64, code: WrongCode) -> Result<String, AllocError>
    ensures { IfOk result (λ text. string_bytes text
        ≡ ended (spaced (codes "wrong" ∷ decimal line ∷ code_text code ∷ []))) }
{
    match code {
        WrongCode::V1 => format!(in alloc; "wrong {line} V1\n"),
        WrongCode::V2 => format!(in alloc; "wrong {line} V2\n"),
        WrongCode::Judged(reason) => {
            let number = reason.number();
            format!(in alloc; "wrong {line} U{number}\n")
        }
    }
}

fn checked_text(alloc: Global, checked: &Checked) -> Result<String, AllocError>
    ensures { IfOk result (λ text. string_bytes text ≡ checked_text checked.now) }
{
    match checked {
        Checked::Holds => format!(in alloc; "holds\n"),
        Checked::Wrong { line, code } => wrong_text(alloc, *line, *code),
    }
}

/// The text of what a placement comes to, as `verify` prints it.
pub fn print_checked(alloc: Global, checked: &Checked) -> Result<Bytes, OutOfMemory>
    ensures { IfOk result (λ text. text ≡ checked_text checked.now) }
{
    let text = checked_text(alloc, checked)?;
    Ok(Bytes::from_vec(text.into_bytes()))
}

/// A placement comes to one answer.
pub fn one_answer_law()
    ensures { (h : History) (lines : List PlacedLine) (answer other : Checked) → IsReadable h
        → IsChecked h lines answer → IsChecked h lines other → answer ≡ other }
{}
