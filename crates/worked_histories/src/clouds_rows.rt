use crate::parts::{check, cover, key, push, revision};
use base_types::{ObjectKey, covers};
use clouds::{Clouds, KeyRevision, OpaqueSpan};
use std::marker::{Send, Sync};
use std::process::Abort;

const MAX: u64 = u64::MAX;

fn span(
    rt: &(impl Abort + AllocGlobal),
    namespace: &str,
    pattern: &str,
    low: u64,
    high: u64,
) -> OpaqueSpan {
    OpaqueSpan {
        cover: cover(rt, "pods", namespace, pattern),
        low,
        high,
    }
}

fn write(rt: &(impl Abort + AllocGlobal), name: &str, number: u64) -> KeyRevision {
    KeyRevision {
        key: key(rt, "pods", name),
        revision: revision(rt, number),
    }
}

// Writes of pods, each with its revision.
fn writes_of(rt: &(impl Abort + AllocGlobal), rows: &[(&str, u64)]) -> Vec<KeyRevision> {
    let mut writes = Vec::new(rt.alloc());
    for (name, number) in rows {
        let write = write(rt, name, *number);
        push(rt, &mut writes, write);
    }
    writes
}

fn shared<T: Send + Sync>(_value: &T) {}

/// What is asked of a pod, and the answer.
#[derive(Clone, Copy)]
enum Answer {
    /// Whether the pod is hidden at a place.
    Clouded(u64, bool),
    /// The first place of a range that hides it.
    Meets(u64, u64, Option<u64>),
    /// Whether the hidden write may have made a revision.
    MayMake(u64, bool),
}

fn is_given(rt: &impl Abort, clouds: &Clouds, pod: &ObjectKey, answer: &Answer) -> bool {
    match answer {
        Answer::Clouded(place, hidden) => clouds.clouded(pod, *place) == *hidden,
        Answer::Meets(low, high, first) => clouds.meets(pod, *low, *high) == *first,
        Answer::MayMake(number, may) => clouds.may_make(pod, revision(rt, *number)) == *may,
    }
}

fn answers(rt: &(impl Abort + AllocGlobal), clouds: &Clouds, name: &str, answer: &Answer) -> bool {
    let pod = key(rt, "pods", name);
    let is_given = is_given(rt, clouds, &pod, answer);
    drop(pod);
    is_given
}

// One unrecorded write, and recorded ones, give this answer of a pod.
fn is_right(
    rt: &(impl Abort + AllocGlobal),
    span: OpaqueSpan,
    rows: &[(&str, u64)],
    name: &str,
    answer: &Answer,
) -> bool {
    let spans = [span];
    let writes = writes_of(rt, rows);
    let clouds = Clouds::build(rt.alloc(), &spans, &writes).expect(rt, "memory");
    drop(spans);
    drop(writes);
    let is_right = answers(rt, &clouds, name, answer);
    drop(clouds);
    is_right
}

/// A binding's answer doesn't show its pod, between places 10 and 14; an update shows it at 15.
static BOUND: [(&str, u64); 3] = [("p", 15), ("q", 12), ("p", 9)];

// What is known of the pod.
static ANSWERS: [Answer; 14] = [
    Answer::Clouded(9, false),
    Answer::Clouded(10, false),
    Answer::Clouded(11, true),
    Answer::Clouded(14, true),
    Answer::Clouded(15, false),
    Answer::Clouded(MAX, false),
    Answer::Meets(10, 14, Some(11)),
    Answer::Meets(13, MAX, Some(13)),
    Answer::Meets(15, MAX, None),
    Answer::Meets(14, 11, None),
    Answer::MayMake(10, false),
    Answer::MayMake(11, true),
    Answer::MayMake(14, true),
    Answer::MayMake(15, false),
];

#[test]
fn a_write_hidden_until_the_next(rt: HostRuntime) {
    for answer in &ANSWERS {
        let span = span(&rt, "d", "p", 10, 14);
        check(&rt, is_right(&rt, span, &BOUND, "p", answer), "the pod");
    }
}

// A span from place 3 to the last place hides a pod, or doesn't.
const HIDDEN: Answer = Answer::Meets(0, MAX, Some(4));

const SHOWN: Answer = Answer::Meets(0, MAX, None);

// The namespace and the name of a cover, and whether it covers the pod `web-1` of namespace `d`.
static COVERS: [(&str, &str, Answer); 10] = [
    ("d", "web-1", HIDDEN),
    ("e", "web-1", SHOWN),
    ("*", "web-1", HIDDEN),
    ("*", "web", SHOWN),
    ("d", "web-*", HIDDEN),
    ("", "web-*", SHOWN),
    ("*", "web-1*", HIDDEN),
    ("d", "*", HIDDEN),
    ("e", "*", SHOWN),
    ("*", "*", HIDDEN),
];

#[test]
fn covers_of_all_forms(rt: HostRuntime) {
    for (namespace, pattern, answer) in &COVERS {
        let span = span(&rt, namespace, pattern, 3, MAX);
        check(&rt, is_right(&rt, span, &[], "web-1", answer), pattern);
    }
}

// A write shows the key's object behind a span.
fn is_shown(writes: &[KeyRevision], key: &ObjectKey, high: u64, place: u64) -> bool {
    for write in writes {
        let number = write.revision.get();
        if high < number && number <= place && write.key == *key {
            return true;
        }
    }
    false
}

/// By looking at every span and every revision.
fn scanned(spans: &[OpaqueSpan], writes: &[KeyRevision], key: &ObjectKey, place: u64) -> bool {
    for span in spans {
        if span.low < place
            && covers(&span.cover, key)
            && !is_shown(writes, key, span.high, place)
        {
            return true;
        }
    }
    false
}

fn next(bits: u64) -> u64 {
    bits.wrapping_mul(6_364_136_223_846_793_005)
        .wrapping_add(1_442_695_040_888_963_407)
}

fn drawn_spans(rt: &(impl Abort + AllocGlobal), seed: u64) -> Vec<OpaqueSpan> {
    let mut spans = Vec::new(rt.alloc());
    let mut bits = seed;
    for _ in 0..seed % 7 {
        bits = next(bits);
        let namespace = NAMESPACES[(bits >> 60 & 3) as usize];
        let pattern = PATTERNS[(bits >> 62) as usize];
        let drawn = span(rt, namespace, pattern, bits >> 56 & 7, bits >> 52 & 7);
        push(rt, &mut spans, drawn);
    }
    spans
}

static NAMESPACES: [&str; 4] = ["*", "d", "e", "d"];

static PATTERNS: [&str; 4] = ["a", "ab", "a*", "*"];

fn drawn_write(bits: u64) -> (&'static str, u64) {
    let name = if bits >> 63 == 0 { "ab" } else { "a" };
    (name, (bits >> 40 & 7).max(1))
}

fn drawn_writes(rt: &(impl Abort + AllocGlobal), seed: u64) -> Vec<KeyRevision> {
    let first = next(seed);
    let second = next(first);
    let rows = [
        drawn_write(first),
        drawn_write(second),
        drawn_write(next(second)),
    ];
    writes_of(rt, &rows)
}

/// The clouded places below 10, and the first of them from each place on.
fn agree(clouds: &Clouds, spans: &[OpaqueSpan], writes: &[KeyRevision], pod: &ObjectKey) -> bool {
    let mut first = None;
    for place in (0..10u64).rev() {
        let clouded = scanned(spans, writes, pod, place);
        if clouded {
            first = Some(place);
        }
        if clouds.clouded(pod, place) != clouded || clouds.meets(pod, place, 9) != first {
            return false;
        }
    }
    true
}

fn agrees(rt: &(impl Abort + AllocGlobal), seed: u64) -> bool {
    let pod = key(rt, "pods", "ab");
    let spans = drawn_spans(rt, seed);
    let writes = drawn_writes(rt, seed);
    let clouds = Clouds::build(rt.alloc(), &spans, &writes).expect(rt, "memory");
    shared(&clouds);
    let agree = agree(&clouds, &spans, &writes, &pod);
    drop(clouds);
    drop(writes);
    drop(spans);
    drop(pod);
    agree
}

#[test]
fn scanning_gives_the_same(rt: HostRuntime) {
    for seed in 0..200u64 {
        assert!(rt; agrees(&rt, seed), "{seed}");
    }
}
