ghost use Rattle.std.specs.Prelude.{◌≡◌, ◌+◌, ◌≤◌, ◌<◌, ◌^◌, ◌-◌, All, length};

use crate::given::{assert_so, line_of, push};
use audit_event::{Event, Seen, SeenFault, Sighting, read_event};
use hash_seed::Seed;
use std::process::Abort;

const EVENT: &str =
    r#"{"kind":"Event","apiVersion":"audit.k8s.io/v1","level":"RequestResponse","auditID":"a","stage":"ResponseComplete","requestURI":"/api/v1/nodes?limit=5","verb":"list","user":{"groups":["g"]},"requestReceivedTimestamp":"2024-05-01T10:00:00Z","stageTimestamp":"2024-05-01T10:00:01Z","#;

// The event of these members and further ones, as a line of this number.
fn event_at(rt: &(impl Abort + AllocGlobal), number: u64, more: &str) -> Event
    ensures { result.line ≡ number }
{
    let mut text = String::new(rt.alloc());
    push(rt, &mut text, EVENT);
    push(rt, &mut text, more);
    push(rt, &mut text, "\"x\":null}");
    let line = line_of(rt, number, text.as_str().as_bytes());
    read_event(rt.alloc(), &line).expect(rt, "an event")
}

fn keep_at(
    rt: &(impl Abort + AllocGlobal),
    seen: &mut Seen,
    number: u64,
    more: &str,
) -> Result<Sighting, SeenFault>
    requires lines { All (λ other. other.line < number) seen.old }
    requires room { length seen.old < 2 ^ 32 - 1 }
    ensures lines { All (λ other. other.line < number + 1) seen.new }
    ensures room { length seen.new ≤ length seen.old + 1 }
{
    let event = event_at(rt, number, more);
    seen.keep(event)
}

#[test]
fn repeats_and_differences(rt: HostRuntime) {
    let mut seen = Seen::new(rt.alloc(), Seed::of(b"")).expect(&rt, "memory");
    let fresh = keep_at(&rt, &mut seen, 1, "");
    assert_so(&rt, fresh == Ok(Sighting::Fresh), "line 1");
    let repeated = keep_at(&rt, &mut seen, 2, r#""x":1,"#);
    assert_so(&rt, repeated == Ok(Sighting::Repeat), "line 2");
    let differs = keep_at(&rt, &mut seen, 3, r#""responseObject":[1.5],"#);
    assert_so(
        &rt,
        differs == Err(SeenFault::Differs { line: 1 }),
        "line 3",
    );
    let other_stage = keep_at(&rt, &mut seen, 4, r#""stage":"Panic","#);
    assert_so(&rt, other_stage == Ok(Sighting::Fresh), "line 4");
    assert_so(&rt, seen.count() == 2, "kept");
}

#[test]
fn unread_bodies_repeat(rt: HostRuntime) {
    let mut seen = Seen::new(rt.alloc(), Seed::of(b"")).expect(&rt, "memory");
    let fresh = keep_at(&rt, &mut seen, 1, r#""responseObject":[1.5],"#);
    assert_so(&rt, fresh == Ok(Sighting::Fresh), "line 1");
    let repeated = keep_at(&rt, &mut seen, 2, r#""responseObject":{"a":-0},"#);
    assert_so(&rt, repeated == Ok(Sighting::Repeat), "line 2");
    assert_so(&rt, seen.finish().len() == 1, "kept");
}
