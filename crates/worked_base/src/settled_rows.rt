ghost use Rattle.std.specs.Prelude.{◌≡◌, ◌∷◌, []};

use base_types::{Bound, Claim, Listed, Range, Reason};
use place_choice::{Settled, settle};
use std::process::Abort;

const MAX: u64 = u64::MAX;

fn claim(
    rt: &(impl Abort + AllocGlobal),
    fails: Option<Reason>,
    bounds: &[Bound],
    reason: Reason,
) -> Claim
    ensures { result.bounds ≡ bounds.now }
{
    let bounds = Vec::from_slice(rt.alloc(), bounds).expect(rt, "memory");
    Claim {
        fails,
        bounds: Listed::from_vec(bounds),
        reason,
    }
}

fn fits(settled: &Settled, places: &[u64]) -> bool {
    match settled {
        Settled::Fits(choice) => choice.as_slice() == places,
        Settled::Breaks { .. } => false,
    }
}

fn breaks(settled: &Settled, at: u32, code: Reason) -> bool {
    match settled {
        Settled::Fits(_) => false,
        Settled::Breaks { event, reason } => *event == at && *reason == code,
    }
}

/// An object that revision 14 made is removed at 15 or later. One read finds it present, and one, which
/// could be after the removal's answer, absent.
#[test]
fn a_removal_takes_its_least_place(rt: HostRuntime) {
    let ranges = [Range {
        event: 1,
        low: 15,
        high: MAX,
    }];
    let present = [Bound {
        range: 0,
        low: 15,
        high: MAX,
    }];
    let claims = [
        claim(&rt, None, &[], Reason::U10),
        claim(&rt, None, &[], Reason::U9),
        claim(&rt, None, &present, Reason::U10),
        claim(&rt, None, &present, Reason::U11),
    ];
    let settled = settle(rt.alloc(), &ranges, &[0, 2, 3, 1], &claims).expect(&rt, "memory");
    assert!(rt; fits(&settled, &[15]));
}

/// One read before revision 16 finds the object absent, and one after it present: each fits by itself.
#[test]
fn one_removal_serves_all_readers(rt: HostRuntime) {
    let ranges = [Range {
        event: 1,
        low: 15,
        high: MAX,
    }];
    let absent = [Bound {
        range: 0,
        low: 15,
        high: 15,
    }];
    let present = [Bound {
        range: 0,
        low: 17,
        high: MAX,
    }];
    let claims = [
        claim(&rt, None, &[], Reason::U10),
        claim(&rt, None, &[], Reason::U9),
        claim(&rt, None, &absent, Reason::U11),
        claim(&rt, None, &[], Reason::U10),
        claim(&rt, None, &present, Reason::U10),
    ];
    let settled = settle(rt.alloc(), &ranges, &[0, 2, 3, 4, 1], &claims).expect(&rt, "memory");
    assert!(rt; breaks(&settled, 4, Reason::U10));
}

const U10: Reason = Reason::U10;

const U14: Option<Reason> = Some(Reason::U14);

// The event's own code, the lowest and the highest place that its answer asks for, and the code that is told: the
// least of its own and of its answer's, U10, where no place from 5 to 9 meets its bounds.
static TOLD: [(Option<Reason>, u64, u64, Option<Reason>); 5] = [
    (None, 6, 12, None),
    (U14, 6, 12, U14),
    (None, 3, 4, Some(U10)),
    (U14, 3, 4, Some(U10)),
    (Some(Reason::U1), 3, 4, Some(Reason::U1)),
];

const FIVE_TO_NINE: [Range; 1] = [Range {
    event: 0,
    low: 5,
    high: 9,
}];

fn one_claim(rt: &(impl Abort + AllocGlobal), fails: Option<Reason>, low: u64, high: u64) -> Claim
    ensures { result.bounds ≡ record { range = 0; low = low; high = high } ∷ [] }
{
    let range = 0;
    claim(rt, fails, &[Bound { range, low, high }], U10)
}

fn alone(rt: &(impl Abort + AllocGlobal), fails: Option<Reason>, low: u64, high: u64) -> Settled {
    let claims = [one_claim(rt, fails, low, high)];
    settle(rt.alloc(), &FIVE_TO_NINE, &[0], &claims).expect(rt, "memory")
}

// Before an event that has a code of its own and breaks in any case.
fn first(rt: &(impl Abort + AllocGlobal), fails: Option<Reason>, low: u64, high: u64) -> Settled {
    let claims = [
        one_claim(rt, fails, low, high),
        one_claim(rt, Some(Reason::U2), 3, 4),
    ];
    settle(rt.alloc(), &FIVE_TO_NINE, &[0, 1], &claims).expect(rt, "memory")
}

// Whether this code is told of the one event, or of the first of two; without a code, the second breaks.
fn are_told(alone: &Settled, first: &Settled, code: Option<Reason>) -> bool {
    match code {
        Some(code) => breaks(alone, 0, code) && breaks(first, 0, code),
        None => fits(alone, &[6]) && breaks(first, 1, Reason::U2),
    }
}

fn nothing_fits(rt: &(impl Abort + AllocGlobal)) -> bool {
    let nothing = settle(rt.alloc(), &[], &[], &[]).expect(rt, "memory");
    fits(&nothing, &[])
}

/// The first event of the order that breaks is named, whatever breaks after it.
#[test]
fn the_least_code_is_told(rt: HostRuntime) {
    for (fails, low, high, code) in &TOLD {
        let alone = alone(&rt, *fails, *low, *high);
        let first = first(&rt, *fails, *low, *high);
        assert!(rt; are_told(&alone, &first, *code));
    }
    assert!(rt; nothing_fits(&rt));
}
