ghost use Rattle.std.specs.Prelude.{◌≡◌, ◌≢◌, List, ℕ, [], ◌∷◌, ◌++◌, Option, OnOk, IfSome, IfNone, string_bytes};
ghost use Rattle.base_types.specs.declared.kubernetes.request.Decision.{Decision};
ghost use Rattle.base_types.specs.declared.verdict.placed.Places.{Places};
ghost use Rattle.base_types.specs.declared.verdict.placed.PlacedAnswer.{PlacedAnswer};
ghost use Rattle.base_types.specs.declared.verdict.placed.PlacedDecision.{PlacedDecision};
ghost use Rattle.base_types.specs.declared.verdict.placed.PlacedLine.{PlacedLine};
ghost use Rattle.verdict_text.specs.Words.{ended};
ghost use Rattle.verdict_text.specs.Placed.{answer_text, decision_text, decision_word, placed_text, places_text};
ghost use Rattle.verdict_text.specs.Placed.{FitsAnswer, FitsDecision, FitsPlaced, FitsPlaces};

use crate::words::{after_front, read_number, read_spaced_number};
use base_types::{Decision, OutOfMemory, PlacedAnswer, PlacedDecision, PlacedLine, Places};

/// Appends the line of one event.
pub fn append_placed(text: &mut String, placed: &PlacedLine) -> Result<(), OutOfMemory>
    ensures text { OnOk result (string_bytes text.new ≡ string_bytes text.old ++ ended
        (placed_text placed.now)) }
    ensures fits { OnOk result (FitsPlaced placed.now) }
{
    let line = placed.line;
    write!(text, "{line} ")?;
    append_answer(text, &placed.answer)?;
    text.push(' ')?;
    append_decision(text, &placed.decision)?;
    text.push('\n')?;
    Ok(())
}

fn append_answer(text: &mut String, answer: &PlacedAnswer) -> Result<(), OutOfMemory>
    ensures text { OnOk result (string_bytes text.new ≡ string_bytes text.old ++ answer_text
        answer.now) }
    ensures fits { OnOk result (FitsAnswer answer.now) }
{
    match *answer {
        PlacedAnswer::Made(revision) => write!(text, "made {revision}")?,
        PlacedAnswer::Removed(place) => write!(text, "removed {place}")?,
        PlacedAnswer::At(place) => write!(text, "at {place}")?,
        PlacedAnswer::Nowhere => text.push_str("none")?,
    }
    Ok(())
}

fn append_decision(text: &mut String, decision: &Option<PlacedDecision>) -> Result<(), OutOfMemory>
    ensures text { OnOk result (string_bytes text.new ≡ string_bytes text.old ++ decision_text
        decision.now) }
    ensures fits { OnOk result (FitsDecision decision.now) }
{
    let Some(judged) = decision else {
        text.push_str("none")?;
        return Ok(());
    };
    let word = match judged.decision {
        Decision::Allow => "allow",
        Decision::Forbid => "forbid",
    };
    let Places {
        roles,
        cluster_roles,
        bindings,
        cluster_bindings,
    } = judged.places;
    write!(
        text,
        "{word} {roles} {cluster_roles} {bindings} {cluster_bindings}"
    )?;
    Ok(())
}

/// Reads the line of one event, without its newline.
pub fn read_placed(text: &str) -> Option<PlacedLine>
    ensures some { IfSome result (λ placed. text.now ≡ placed_text placed) }
    ensures fits { IfSome result FitsPlaced }
    ensures none { IfNone result ((placed : PlacedLine) → FitsPlaced placed
        → text.now ≢ placed_text placed) }
{
    let (line, rest) = read_spaced_number(text)?;
    let (answer, rest) = read_answer(rest)?;
    let decision = read_decision(rest)?;
    Some(PlacedLine {
        line,
        answer,
        decision,
    })
}

// An answer and the space behind it, and what follows.
fn read_answer(text: &str) -> Option<(PlacedAnswer, &str)>
    ensures some { IfSome result (λ found. text.now ≡ answer_text found.0 ++ 32 ∷ found.1.now) }
    ensures fits { IfSome result (λ found. FitsAnswer found.0) }
    ensures none { IfNone result ((answer : PlacedAnswer) (rest : List ℕ) → FitsAnswer answer
        → text.now ≢ answer_text answer ++ 32 ∷ rest) }
{
    if let Some(rest) = after_front(text, "made ") {
        let (revision, rest) = read_spaced_number(rest)?;
        return Some((PlacedAnswer::Made(revision), rest));
    }
    if let Some(rest) = after_front(text, "removed ") {
        let (place, rest) = read_spaced_number(rest)?;
        return Some((PlacedAnswer::Removed(place), rest));
    }
    if let Some(rest) = after_front(text, "at ") {
        let (place, rest) = read_spaced_number(rest)?;
        return Some((PlacedAnswer::At(place), rest));
    }
    let rest = after_front(text, "none ")?;
    Some((PlacedAnswer::Nowhere, rest))
}

fn read_decision(text: &str) -> Option<Option<PlacedDecision>>
    ensures some { IfSome result (λ decision. text.now ≡ decision_text decision) }
    ensures fits { IfSome result FitsDecision }
    ensures none { IfNone result ((decision : Option PlacedDecision) → FitsDecision decision
        → text.now ≢ decision_text decision) }
{
    if text == "none" {
        return Some(None);
    }
    let (decision, rest) = read_decision_word(text)?;
    let places = read_places(rest)?;
    Some(Some(PlacedDecision { decision, places }))
}

// What was decided and the space behind it, and what follows.
fn read_decision_word(text: &str) -> Option<(Decision, &str)>
    ensures some { IfSome result (λ found. text.now ≡ decision_word found.0 ++ 32 ∷ found.1.now) }
    ensures none { IfNone result ((decision : Decision) (rest : List ℕ)
        → text.now ≢ decision_word decision ++ 32 ∷ rest) }
{
    if let Some(rest) = after_front(text, "allow ") {
        return Some((Decision::Allow, rest));
    }
    let rest = after_front(text, "forbid ")?;
    Some((Decision::Forbid, rest))
}

fn read_places(text: &str) -> Option<Places>
    ensures some { IfSome result (λ places. text.now ≡ places_text places) }
    ensures fits { IfSome result FitsPlaces }
    ensures none { IfNone result ((places : Places) → FitsPlaces places
        → text.now ≢ places_text places) }
{
    let (roles, rest) = read_spaced_number(text)?;
    let (cluster_roles, rest) = read_spaced_number(rest)?;
    let (bindings, rest) = read_spaced_number(rest)?;
    let cluster_bindings = read_number(rest)?;
    Some(Places {
        roles,
        cluster_roles,
        bindings,
        cluster_bindings,
    })
}
