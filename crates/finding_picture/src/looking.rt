ghost use Rattle.std.specs.Prelude.{◌≡◌, ◌==◌, ◌<◌, AllPairs, find, option_map};
ghost use Rattle.finding_picture.specs.Looking.{event_on, user_on};

use audit_event::Event;
use log_context::Context;

/// The event of the log with this line. That of a checkpoint has none.
pub fn event_on(context: &Context, line: u64) -> Option<&Event>
    ensures { option_map (λ event. event.now) result ≡ event_on context.now.events line }
{
    event_among(context.events(), line)
}

/// Who wrote, by the line of the write.
pub fn user_on(context: &Context, line: u64) -> &str
    ensures { result.now ≡ user_on context.now.events line }
{
    match event_on(context, line) {
        Some(event) => event.user.name.as_str(),
        None => "-",
    }
}

fn event_among(events: &[Event], line: u64) -> Option<&Event>
    requires { AllPairs (λ a b. a.line < b.line) events.now }
    ensures { option_map (λ event. event.now) result
        ≡ find (λ event. event.line == line) events.now }
{
    let upto = events.partition_point(|event| event.line <= line);
    if upto == 0 {
        return None;
    }
    let event = &events[upto - 1];
    if event.line != line {
        return None;
    }
    Some(event)
}
