ghost use Rattle.std.specs.Prelude.{◌≡◌, ◌≢◌, ◌<◌, ◌^◌, ◌↔◌, ◌++◌, ℕ, List, Some, IfErr, IfNone, IfOk, IfSome};
ghost use Rattle.std.specs.Prelude.{IsTrue, OnErr, OnOk, AllPairs, Contains, filter, length, map, option_map};
ghost use Rattle.std.specs.Prelude.{slice_get};
ghost use Rattle.history_model.specs.Events.{Event};
ghost use Rattle.history_model.specs.Histories.{IsEvent, Version as Recorded};
ghost use Rattle.history_model.specs.Machine as model;
ghost use Rattle.history_model.specs.Words.{Strays, word};
ghost use Rattle.object_past.specs.Modelled.{version_of};
ghost use Rattle.serial_machine.specs.Held.{HasMade, HasRooms, end_of_steps, is_unmade, unmade_puts};
ghost use Rattle.serial_machine.specs.Made.{IsAstray, IsLineOf, IsLineMade, IsRightLine, IsStepAs, IsFaultOfLine};
ghost use Rattle.serial_machine.specs.Made.{StandsBehind};
ghost use Rattle.serial_machine.specs.Stepping.{step_of};
ghost use Rattle.log_context.specs.Histories.{history_of};
ghost use Rattle.log_context.specs.Uses.{AreUsesOf};
ghost use Rattle.write_groups.specs.declared.event.LogEvent.{LogEvent};

use crate::fault::{CheckFault, StepFault, WrongCode};
use crate::lines::has_words;
use crate::machine::Machine;
use crate::places::{answer_place, decision_places, is_out_of_caches, is_outside};
use crate::scene::{Scene, has_no_maker};
use crate::step::Step;
use crate::verdicts::verdict;
use crate::words::{PlacementWord, removal_by, word_at};
use base_types::{PlacedLine, Reason};
use log_context::Context;
use object_past::Version;
use write_groups::LogEvent;

// The number of the event of this line.
fn number_at(log: &[LogEvent], line: u64) -> Option<u32>
    requires rising { AllPairs (λ a b. a.line < b.line) log.now }
    requires few { length log.now < 2 ^ 32 }
    ensures within { IfSome result (λ number. number < length log.now) }
    ensures some { IfSome result (λ number. (event : LogEvent)
        → slice_get log.now number ≡ Some event → event.line ≡ line) }
    ensures none { IfNone result ((event : LogEvent) → Contains log.now event → event.line ≢ line) }
{
    let upto = log.partition_point(|event| event.line <= line);
    if upto == 0 {
        return None;
    }
    if log[upto - 1].line != line {
        return None;
    }
    Some((upto - 1) as u32)
}

// The number of the event of which this is the line, with its words.
fn event_of_line(context: &Context, placed: &PlacedLine) -> Option<u32>
    ensures within { IfSome result (λ number. number < length context.now.log) }
    ensures some { IfSome result (λ number. (event : Event)
        → IsEvent (history_of context.now) number event
        → IsLineOf (history_of context.now) placed.now number event) }
    ensures none { IfNone result ((number : ℕ) (event : Event)
        → IsLineOf (history_of context.now) placed.now number event → ⊥) }
{
    let Some(number) = number_at(context.log(), placed.line) else {
        return None;
    };
    if !has_words(context, number, placed) {
        return None;
    }
    Some(number)
}

// Whether the line has a place that its event can't have.
fn is_astray(context: &Context, placed: &PlacedLine, number: u32) -> bool
    requires { number < length context.now.log }
    ensures { (event : Event) → IsEvent (history_of context.now) number event → IsTrue result
        ↔ IsAstray (history_of context.now) placed.now number event }
{
    let outside = is_outside(context, number, answer_place(placed.answer));
    let out_of_caches = is_out_of_caches(context, number, &decision_places(placed.decision));
    outside || out_of_caches
}

fn reply_at(context: &Context, number: u32, place: u64) -> Step<'_>
    requires { number < length context.now.log }
    ensures { (event : Event) → IsEvent (history_of context.now) number event
        → step_of result ≡ model.Reply number event place }
{
    Step::Reply {
        number,
        event: &context.log()[number as usize],
        place,
    }
}

// The step of the event of this number at the place; strays, and events that say nothing, have none.
fn step_at(context: &Context, number: u32, place: u64) -> Option<Step<'_>>
    requires { number < length context.now.log }
    ensures some { IfSome result (λ step. (event : Event)
        → IsEvent (history_of context.now) number event
        → IsStepAs (history_of context.now) number event place
        (word (history_of context.now) number event) (step_of step)) }
    ensures none { IfNone result ((event : Event) (step : model.Step)
        → IsEvent (history_of context.now) number event
        → IsStepAs (history_of context.now) number event place
        (word (history_of context.now) number event) step → ⊥) }
{
    // For the proof alone, as for a machine's start.
    let _log = context.log();
    let past = context.past();
    match word_at(context, number) {
        PlacementWord::Makes(revision) => match past.at(revision) {
            Some(version) => Some(Step::Put(version)),
            None => None,
        },
        PlacementWord::Removes(_) => match removal_by(past, number) {
            Some(removal) => Some(Step::Remove { removal, place }),
            None => None,
        },
        PlacementWord::At => Some(reply_at(context, number, place)),
        PlacementWord::Strays => None,
        PlacementWord::Nothing => None,
    }
}

// Whether the event of this number is the write of another key than its revision's.
fn strays(context: &Context, number: u32) -> bool
    requires { number < length context.now.log }
    ensures { (event : Event) → IsEvent (history_of context.now) number event → IsTrue result
        ↔ (word (history_of context.now) number event ≡ Strays) }
{
    matches!(word_at(context, number), PlacementWord::Strays)
}

// The line's step, where the line is right; none where its event says nothing.
fn right_step<'a>(
    context: &'a Context,
    machine: &Machine,
    placed: &PlacedLine,
) -> Result<Option<Step<'a>>, StepFault>
    requires rooms { HasRooms (history_of context.now) machine.now.objects }
    requires uses { AreUsesOf (history_of context.now) machine.now.uses }
    ensures right { IfOk result (λ found. (done : List model.Step)
        → HasMade (history_of context.now) machine.now done
        → IsRightLine (history_of context.now) done placed.now (option_map step_of found)) }
    ensures wrong { IfErr result (λ fault. (done : List model.Step)
        → HasMade (history_of context.now) machine.now done
        → IsFaultOfLine (history_of context.now) done placed.now fault) }
{
    let line = placed.line;
    let Some(number) = event_of_line(context, placed) else {
        return Err(CheckFault::Wrong {
            line,
            code: WrongCode::V1,
        });
    };
    if is_astray(context, placed, number) {
        return Err(CheckFault::Wrong {
            line,
            code: WrongCode::V2,
        });
    }
    if strays(context, number) {
        return Err(CheckFault::Wrong {
            line,
            code: WrongCode::Judged(Reason::U3),
        });
    }
    let Some(step) = step_at(context, number, answer_place(placed.answer)) else {
        return Ok(None);
    };
    let scene = Scene {
        context,
        machine,
        upto: step.place(),
    };
    if let Some(code) = verdict(scene, step)? {
        return Err(CheckFault::Wrong {
            line,
            code: WrongCode::Judged(code),
        });
    }
    Ok(Some(step))
}

// Whether the version has no maker, behind the one place and not behind the other.
fn is_unmade(version: &Version, low: u64, high: u64) -> bool
    ensures { result ≡ is_unmade low high (version_of version.now) }
{
    let revision = version.revision.get();
    has_no_maker(version.maker) && (low < revision && revision <= high)
}

// Those of the versions that come behind the place.
fn versions_behind(versions: &[Version], place: u64) -> &[Version]
    requires { AllPairs (λ a b. a.revision < b.revision) versions.now }
    ensures among { (v : Recorded) → Contains (map version_of result.now) v
        → Contains (map version_of versions.now) v }
    ensures rising { AllPairs (λ a b. a.revision < b.revision) result.now }
    ensures unmade { (high : ℕ) → filter (is_unmade place high) (map version_of result.now) ≡ filter
        (is_unmade place high) (map version_of versions.now) }
{
    let upto = versions.partition_point(|version| version.revision.get() <= place);
    let (_, behind) = versions.split_at(upto);
    behind
}

impl Machine {
    // Puts the versions without a maker that come behind the last step, up to the place.
    fn put_unmade(&mut self, context: &Context, upto: u64)
        ensures { (done : List model.Step) → HasMade (history_of context.now) self.old done
            → HasMade (history_of context.now) self.new (done
            ++ unmade_puts (history_of context.now)
            (end_of_steps (history_of context.now).start done) upto) }
    {
        let place = self.place;
        let versions = versions_behind(context.past().versions(), place);
        for version in versions {
            if version.revision.get() > upto {
                break;
            }
            if is_unmade(version, place, upto) {
                self.make(Step::Put(version));
            }
        }
    }

    /// Makes the line of a placement: puts the versions without a maker up to its place, and then makes its step. The
    /// context is that of the machine. A line that is wrong, and want of memory, leave the machine as it was.
    pub fn step(&mut self, context: &Context, placed: &PlacedLine) -> Result<(), StepFault>
        requires { (done : List model.Step) × HasMade (history_of context.now) self.old done
            × StandsBehind (history_of context.now) done placed.now }
        ensures made { OnOk result ((done : List model.Step)
            → HasMade (history_of context.now) self.old done
            → IsLineMade (history_of context.now) done placed.now self.old self.new) }
        ensures wrong { IfErr result (λ fault. (done : List model.Step)
            → HasMade (history_of context.now) self.old done
            → IsFaultOfLine (history_of context.now) done placed.now fault) }
        ensures as_before { OnErr result (self.new ≡ self.old) }
    {
        if let Some(step) = right_step(context, self, placed)? {
            self.put_unmade(context, step.place());
            self.make(step);
        }
        Ok(())
    }
}
