ghost use Rattle.std.specs.Prelude.{◌≡◌, ◌<◌, length};

use crate::parts::Asked::MostRecent;
use crate::parts::{ToldPart, check, event, revision};
use base_types::{OutOfMemory, PlacedAnswer, Places, Reason, Revision};
use clouds::Clouds;
use event_claims::{Decisions, View, claim_of, placed_line};
use local_bounds::Listable;
use node_number::NodeId;
use object_past::{Past, Removals, Versions};
use std::process::Abort;
use time_windows::Windows;
use write_groups::LogEvent;

/// Lists without selectors.
#[derive(Drop)]
struct Unselected;

impl Listable for Unselected {
    ghost use Rattle.std.specs.Prelude.{true};

    ghost listable = { λ lists event tree. true };

    fn is_listable(&self, _event: u32, _node: NodeId) -> Result<bool, OutOfMemory> {
        Ok(true)
    }
}

/// An authorizer that never gives a decision that is recorded.
#[derive(Drop)]
struct Unmoved;

impl Decisions for Unmoved {
    ghost use Rattle.std.specs.Prelude.{false};

    ghost decides = { λ decisions event places. false };

    fn find(&self, _event: u32, _low: u64, _high: u64) -> Option<Places> {
        None
    }
}

// What the one event of a log says, the uid that it shows, and the code of its claim. There was never an object.
static CASES: [(ToldPart, &str, Option<Reason>); 11] = [
    (ToldPart::Absent, "u", None),
    (ToldPart::Present, "u", Some(Reason::U12)),
    (ToldPart::Seen, "u", Some(Reason::U10)),
    (ToldPart::Updated, "u", Some(Reason::U8)),
    (ToldPart::Removed, "", Some(Reason::U9)),
    (ToldPart::UnseenPods, "u", None),
    (ToldPart::NoneListed, "u", None),
    (ToldPart::SomeListed, "u", Some(Reason::U13)),
    (ToldPart::OtherLevel, "u", Some(Reason::U1)),
    (ToldPart::OmittedStage, "u", Some(Reason::U2)),
    (ToldPart::Allowed, "u", Some(Reason::U14)),
];

/// What is known of the log besides its events: nothing was written, and nothing is hidden.
#[derive(Drop)]
struct World {
    windows: Windows,
    clouds: Clouds,
    past: Past,
}

fn make_world(rt: &(impl Abort + AllocGlobal), start: Revision) -> World
    ensures { result.windows.start ≡ start }
{
    let (versions, removals) = (Versions::new(rt.alloc()), Removals::new(rt.alloc()));
    World {
        windows: Windows::build(rt.alloc(), start, &[]).expect(rt, "memory"),
        clouds: Clouds::build(rt.alloc(), &[], &[]).expect(rt, "memory"),
        past: Past::build(rt.alloc(), versions, removals).expect(rt, "memory"),
    }
}

// A write could not have found its revision.
fn finding_fault(told: ToldPart) -> Option<Reason> {
    match told {
        ToldPart::Updated => Some(Reason::U8),
        _ => None,
    }
}

type Viewed<'a> = View<'a, Unselected, Unmoved>;

// The code of the first event's claim.
fn code_of(
    rt: &(impl Abort + AllocGlobal),
    view: &Viewed<'_>,
    fault: Option<Reason>,
) -> Option<Reason>
    requires { 0 < length view.now.log.now }
{
    let claim = claim_of(rt.alloc(), view, 0, fault).expect(rt, "memory");
    let code = claim.fails;
    drop(claim);
    code
}

// How the first event's placed line answers.
fn answer_of(
    rt: &(impl Abort + AllocGlobal),
    view: &Viewed<'_>,
    fault: Option<Reason>,
) -> Option<PlacedAnswer>
    requires { 0 < length view.now.log.now }
{
    match placed_line(rt.alloc(), view, 0, fault, &[]).expect(rt, "memory") {
        Some(line) => Some(line.answer),
        None => None,
    }
}

// An event is placed where its claim has no code; that there was no object is so at the start.
fn is_answer(told: ToldPart, wanted: Option<Reason>, answer: Option<PlacedAnswer>) -> bool {
    match told {
        ToldPart::Absent => answer == Some(PlacedAnswer::At(10)),
        _ => answer.is_some() == wanted.is_none(),
    }
}

// The claim has this code, and the event is placed where it has none. The revision that it shows is from before the
// start.
fn is_judged(
    rt: &(impl Abort + AllocGlobal),
    start: Revision,
    world: &World,
    row: &(ToldPart, &'static str, Option<Reason>),
) -> bool
    requires { world.now.windows.start ≡ start }
{
    let (told, uid, wanted) = *row;
    let log = [event(rt, 3, &(told, "a", uid, 9, MostRecent, 100, 200))];
    let view = View {
        start,
        lag: 5,
        log: &log,
        windows: &world.windows,
        clouds: &world.clouds,
        past: &world.past,
        lists: &Unselected,
        decisions: &Unmoved,
    };
    let fault = finding_fault(told);
    let (code, answer) = (code_of(rt, &view, fault), answer_of(rt, &view, fault));
    drop(log);
    code == wanted && is_answer(told, wanted, answer)
}

#[test]
fn claims_of_one_event(rt: HostRuntime) {
    let start = revision(&rt, 10);
    let world = make_world(&rt, start);
    for row in &CASES {
        check(&rt, is_judged(&rt, start, &world, row), "an event");
    }
    drop(world);
}
