ghost use Rattle.std.specs.Prelude.{◌≡◌, pos, ◌+ℤ◌, ◌-ℤ◌, int_lt};
ghost use Rattle.answer_class.specs.Times.{is_early, is_before, is_late};

use audit_event::Event;
use setup_file::Setup;

// Whether a moment before another lies before a third.
fn begins_before(at: i128, slack: u64, start: i128) -> bool
    ensures { result ≡ int_lt (at -ℤ pos slack) start }
{
    match at.checked_sub(slack as i128) {
        Some(lo) => lo < start,
        None => true,
    }
}

fn ends_before(at: i128, slack: u64, start: i128) -> bool
    ensures { result ≡ int_lt (at +ℤ pos slack) start }
{
    match at.checked_add(slack as i128) {
        Some(hi) => hi < start,
        None => false,
    }
}

fn ends_after(at: i128, slack: u64, until: i128) -> bool
    ensures { result ≡ int_lt until (at +ℤ pos slack) }
{
    match at.checked_add(slack as i128) {
        Some(hi) => until < hi,
        None => true,
    }
}

/// Whether an event's request may have begun before the log.
pub fn is_early(setup: &Setup, event: &Event) -> bool
    ensures { result ≡ is_early setup.now event.now }
{
    begins_before(event.received.0, setup.slack, setup.start_time.0)
}

/// Whether an event's request has ended before the log.
pub fn is_before(setup: &Setup, event: &Event) -> bool
    ensures { result ≡ is_before setup.now event.now }
{
    ends_before(event.staged.0, setup.slack, setup.start_time.0)
}

/// Whether an event's request may have ended after the log.
pub fn is_late(setup: &Setup, event: &Event) -> bool
    ensures { result ≡ is_late setup.now event.now }
{
    match setup.until {
        Some(until) => ends_after(event.staged.0, setup.slack, until.0),
        None => false,
    }
}
