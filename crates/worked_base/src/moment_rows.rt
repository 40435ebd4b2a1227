ghost use Rattle.std.specs.Prelude.{◌≡◌, ◌<◌, ◌≤◌, ◌≤ℤ◌, IfOk, All, AllPairs};

use crate::given::check;
use base_types::{Moment, OutOfMemory};
use std::alloc::Global;
use std::process::Abort;
use strict_order::{Moments, Thing, settle_moments};

const NO_END: u128 = 73_786_976_294_838_206_464;

const TEN: i128 = 1_714_557_600_000_000_000;

const SECOND: i128 = 1_000_000_000;

// The first moment of a thing and its last, its least number and its greatest.
type Bounds = (i128, i128, u128, u128);

// What is seen, the things of the lines 1, 2 and so on, the lines of two that cross, and else the moments of all.
static SETTLED: [(&str, &[Bounds], Option<(u64, u64)>, &[Moment]); 6] = [
    (
        "revisions 11 and 12 are made, a list shows both, and a later one only the first",
        &[
            (TEN + SECOND, TEN + 2 * SECOND, 22, 22),
            (TEN + SECOND, TEN + 9 * SECOND, 24, 24),
            (TEN + 3 * SECOND, TEN + 4 * SECOND, 25, 25),
            (TEN + 5 * SECOND, TEN + 6 * SECOND, 23, 23),
        ],
        Some((4, 3)),
        &[],
    ),
    (
        "the same where the later list began before the other ended",
        &[
            (TEN + SECOND, TEN + 2 * SECOND, 22, 22),
            (TEN + SECOND, TEN + 9 * SECOND, 24, 24),
            (TEN + 3 * SECOND, TEN + 4 * SECOND, 25, 25),
            (TEN + 3 * SECOND, TEN + 6 * SECOND, 23, 23),
        ],
        None,
        &[
            Moment(TEN + SECOND),
            Moment(TEN + 3 * SECOND),
            Moment(TEN + 3 * SECOND),
            Moment(TEN + 3 * SECOND),
        ],
    ),
    ("no thing", &[], None, &[]),
    (
        "one without an end",
        &[(5, 5, 23, NO_END), (1, 1, 30, 30)],
        None,
        &[Moment(5), Moment(1)],
    ),
    (
        "the revision was seen before it was made",
        &[(3, 4, 23, 25), (5, 6, 22, 22)],
        Some((2, 1)),
        &[],
    ),
    (
        "both writes come after both reads: the first lines are told",
        &[(9, 9, 2, 2), (9, 9, 2, 2), (1, 1, 3, 3), (1, 1, 3, 3)],
        Some((1, 3)),
        &[],
    ),
];

fn thing(line: u64, lo: i128, hi: i128, least: u128, greatest: u128) -> Thing
    ensures { result ≡ record { line = line; lo = record { 0 = lo }; hi = record { 0 = hi }; least = least; greatest = greatest } }
{
    Thing {
        line,
        lo: Moment(lo),
        hi: Moment(hi),
        least,
        greatest,
    }
}

// The things of lines from 1 on. An end below its beginning, which no row has, is lifted to it.
fn things_of(alloc: Global, rows: &[Bounds]) -> Result<Vec<Thing>, OutOfMemory>
    ensures lines { IfOk result (λ things. AllPairs (λ a b. a.line < b.line) things.items) }
    ensures moments { IfOk result (λ things. All (λ thing. thing.lo.0 ≤ℤ thing.hi.0) things.items) }
    ensures numbers { IfOk result (λ things. All (λ thing. thing.least ≤ thing.greatest) things.items) }
{
    let mut things = Vec::new(alloc);
    for line in 0..rows.len() {
        let (lo, hi, least, greatest) = rows[line];
        let hi = lo.max(hi);
        let greatest = least.max(greatest);
        things.push(thing(line as u64 + 1, lo, hi, least, greatest))?;
    }
    Ok(things)
}

fn is_settled(settled: &Moments, crossing: Option<(u64, u64)>, moments: &[Moment]) -> bool {
    match settled {
        Moments::Found(found) => crossing.is_none() && found.as_slice() == moments,
        Moments::Crossed { first, second } => crossing == Some((*first, *second)),
    }
}

fn settles(
    rt: &(impl Abort + AllocGlobal),
    rows: &[Bounds],
    crossing: Option<(u64, u64)>,
    moments: &[Moment],
) -> bool {
    let things = things_of(rt.alloc(), rows).expect(rt, "memory");
    let settled = settle_moments(rt.alloc(), &things).expect(rt, "memory");
    is_settled(&settled, crossing, moments)
}

#[test]
fn worked_things_settle(rt: HostRuntime) {
    for (seen, rows, crossing, moments) in &SETTLED {
        check(&rt, settles(&rt, rows, *crossing, moments), seen);
    }
}

// Small bounds, so that many of them meet.
fn drawn(rt: &(impl Abort + AllocGlobal), seed: u64) -> Vec<Bounds> {
    let mut rows = Vec::new(rt.alloc());
    let mut bits = seed;
    for _ in 0..seed % 9 {
        bits = bits
            .wrapping_mul(6_364_136_223_846_793_005)
            .wrapping_add(1_442_695_040_888_963_407);
        let lo = i128::from(bits >> 60);
        let hi = lo.max(i128::from(bits >> 56 & 31));
        let least = u128::from(bits >> 51 & 31);
        let greatest = least + u128::from(bits >> 47 & 15);
        rows.push((lo, hi, least, greatest)).expect(rt, "memory");
    }
    rows
}

// The first moment of a thing, by comparing it with all.
fn compared(things: &[Thing], b: &Thing) -> Moment {
    let mut moment = b.lo;
    for a in things {
        if a.greatest < b.least && moment < a.lo {
            moment = a.lo;
        }
    }
    moment
}

fn all_compared(rt: &(impl Abort + AllocGlobal), things: &[Thing]) -> Vec<Moment> {
    let mut moments = Vec::new(rt.alloc());
    for thing in things {
        moments.push(compared(things, thing)).expect(rt, "memory");
    }
    moments
}

// Two last moments with their lines.
type Ends = ((Moment, u64), (Moment, u64));

fn lesser(least: Option<Ends>, ends: Ends) -> Ends {
    match least {
        Some(least) if least <= ends => least,
        _ => ends,
    }
}

// The lines of the first two things that cross, by comparing all with all.
fn compared_lines(things: &[Thing]) -> Option<(u64, u64)> {
    let mut least: Option<Ends> = None;
    for b in things {
        for a in things {
            if a.greatest < b.least && b.hi < a.lo {
                least = Some(lesser(least, ((b.hi, b.line), (a.hi, a.line))));
            }
        }
    }
    let (second, first) = least?;
    Some((first.1, second.1))
}

// Whether what is drawn has moments, which comparing all with all gives as well.
fn drawn_has_moments(rt: &(impl Abort + AllocGlobal), seed: u64) -> bool {
    let rows = drawn(rt, seed);
    let things = things_of(rt.alloc(), &rows).expect(rt, "memory");
    let moments = all_compared(rt, &things);
    let crossing = compared_lines(&things);
    assert!(rt; settles(rt, &rows, crossing, &moments), "at {seed}");
    crossing.is_none()
}

#[test]
fn all_compared_with_all_give_the_same(rt: HostRuntime) {
    let mut found = 0u32;
    for seed in 0..300u64 {
        if drawn_has_moments(&rt, seed) {
            found = found.saturating_add(1);
        }
    }
    assert!(rt; 50 < found && found < 250);
}
