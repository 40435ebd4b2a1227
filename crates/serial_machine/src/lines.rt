ghost use Rattle.std.specs.Prelude.{◌≡◌, ◌<◌, ◌↔◌, IfNone, IfSome, IsTrue, length, option_map, slice_get};
ghost use Rattle.base_types.specs.Placements.{RisesByLine};
ghost use Rattle.history_model.specs.Checking.{DiffersAt, HasAnswerWord, HasDecisionWord, HasWords, IsLeastLine};
ghost use Rattle.history_model.specs.Checking.{NoLine};
ghost use Rattle.history_model.specs.Events.{Event};
ghost use Rattle.history_model.specs.Histories.{IsEvent};
ghost use Rattle.history_model.specs.Readable.{IsReadable};
ghost use Rattle.history_model.specs.Words as model;
ghost use Rattle.serial_machine.specs.Lines.{IsAlike, IsUnlike};
ghost use Rattle.serial_machine.specs.Words.{SaysWord};
ghost use Rattle.log_context.specs.Histories.{history_of};

use crate::words::{PlacementWord, event_count, word_at};
use base_types::{Decision, PlacedAnswer, PlacedDecision, PlacedLine};
use log_context::Context;

fn has_answer_word(word: PlacementWord, answer: PlacedAnswer) -> bool
    ensures { (said : model.Word) → SaysWord said word → IsTrue result ↔ HasAnswerWord said answer }
{
    match word {
        PlacementWord::Makes(_) => matches!(answer, PlacedAnswer::Made(_)),
        PlacementWord::Removes(_) => matches!(answer, PlacedAnswer::Removed(_)),
        PlacementWord::At => matches!(answer, PlacedAnswer::At(_)),
        PlacementWord::Strays => matches!(answer, PlacedAnswer::Nowhere),
        PlacementWord::Nothing => matches!(answer, PlacedAnswer::Nowhere),
    }
}

fn is_same(decision: Decision, other: Decision) -> bool
    ensures { IsTrue result ↔ (decision ≡ other) }
{
    decision == other
}

// Whether this decision was placed.
fn is_placed(decided: Decision, placed: Option<PlacedDecision>) -> bool
    ensures { IsTrue result ↔ HasDecisionWord (Some decided) placed }
{
    match placed {
        Some(placed) => is_same(placed.decision, decided),
        None => false,
    }
}

fn has_decision_word(decision: Option<Decision>, placed: Option<PlacedDecision>) -> bool
    ensures { IsTrue result ↔ HasDecisionWord decision placed }
{
    match decision {
        Some(decided) => is_placed(decided, placed),
        None => placed.is_none(),
    }
}

/// Whether the line has this event's words.
pub fn has_words(context: &Context, number: u32, line: &PlacedLine) -> bool
    requires { number < length context.now.log }
    ensures { (event : Event) → IsEvent (history_of context.now) number event → IsTrue result
        ↔ HasWords (history_of context.now) number event line.now }
{
    let event = &context.log()[number as usize];
    let answered = has_answer_word(word_at(context, number), line.answer);
    let decided = has_decision_word(event.decision, line.decision);
    answered && decided
}

// Where the placement differs from the event of this number, by the line of that number.
fn difference_at(context: &Context, lines: &[PlacedLine], number: u32) -> Option<u64>
    requires { number < length context.now.log }
    ensures some { IfSome result (λ at. (event : Event)
        → IsEvent (history_of context.now) number event
        → IsUnlike (history_of context.now) lines.now number event at) }
    ensures none { IfNone result ((event : Event) → IsEvent (history_of context.now) number event
        → IsAlike (history_of context.now) lines.now number event) }
{
    let at = context.line_of(number);
    let Some(line) = line_at(lines, number) else {
        return Some(at);
    };
    if line.line != at {
        return Some(at.min(line.line));
    }
    if has_words(context, number, line) {
        return None;
    }
    Some(at)
}

fn line_at(lines: &[PlacedLine], number: u32) -> Option<&PlacedLine>
    ensures { option_map (λ line. line.now) result ≡ slice_get lines.now number }
{
    lines.get(number as usize)
}

/// The least line that the log or the placement lacks, or of which the placement's words aren't the event's.
pub fn first_difference(context: &Context, lines: &[PlacedLine]) -> Option<u64>
    requires { RisesByLine lines.now }
    ensures some { IfSome result (IsLeastLine (DiffersAt (history_of context.now) lines.now)) }
    ensures none { IfNone result (NoLine (DiffersAt (history_of context.now) lines.now)) }
    ensures readable { IsReadable (history_of context.now) }
{
    let count = event_count(context);
    for number in 0..count {
        if let Some(at) = difference_at(context, lines, number) {
            return Some(at);
        }
    }
    let further = line_at(lines, count)?;
    Some(further.line)
}
