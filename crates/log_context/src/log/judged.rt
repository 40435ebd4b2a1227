ghost use Rattle.std.specs.Prelude.{◌≡◌, ◌≤◌, ◌^◌, ◌-ℤ◌, pos, int_lt};
ghost use Rattle.audit_event.specs.Events.{IsSound};
ghost use Rattle.answer_class.specs.Times.{lo, hi};
ghost use Rattle.log_context.specs.Judged.{judged_user, is_skipped, is_behind, is_judged, judged_decision};

use answer_class::{is_completing, is_late};
use audit_event::Event;
use base_types::{Decision, Moment, User, has_text};
use setup_file::Setup;

/// The earliest moment at which an event's request may have begun.
pub fn lo_of(setup: &Setup, event: &Event) -> Moment
    requires slack { setup.now.slack ≤ 10 ^ 18 }
    requires sound { IsSound event.now }
    ensures { result.0 ≡ lo setup.now event.now }
{
    Moment(event.received.0 - setup.slack as i128)
}

/// The latest moment at which an event's request may have ended.
pub fn hi_of(setup: &Setup, event: &Event) -> Moment
    requires slack { setup.now.slack ≤ 10 ^ 18 }
    requires sound { IsSound event.now }
    ensures { result.0 ≡ hi setup.now event.now }
{
    Moment(event.staged.0 + setup.slack as i128)
}

/// Whose permissions a request needs: whom it was made as, or who authenticated (Kubernetes "Authenticating", "User
/// impersonation").
pub fn judged_user(event: &Event) -> &User
    ensures { result.now ≡ judged_user event.now }
{
    match &event.impersonated {
        Some(user) => user,
        None => &event.user,
    }
}

fn is_skipped(setup: &Setup, user: &User) -> bool
    ensures { result ≡ is_skipped setup.now user.now }
{
    user.groups.iter().any(|group| has_text(&setup.skip, group))
}

// Whether the moment that is `lag` earlier lies before the start.
fn is_before(start: i128, lag: u64, at: i128) -> bool
    ensures { result ≡ int_lt (at -ℤ pos lag) start }
{
    match at.checked_sub(lag as i128) {
        Some(earlier) => earlier < start,
        None => true,
    }
}

// Whether an authorizer may have known less at the moment than the log does.
fn is_behind(setup: &Setup, at: Moment) -> bool
    ensures { result ≡ is_behind setup.now at.0 }
{
    is_before(setup.start_time.0, setup.lag, at.0)
}

fn is_judged(setup: &Setup, event: &Event) -> bool
    requires slack { setup.now.slack ≤ 10 ^ 18 }
    requires sound { IsSound event.now }
    ensures { result ≡ is_judged setup.now event.now }
{
    setup.authorize
        && is_completing(event.stage)
        && !is_skipped(setup, judged_user(event))
        && !is_behind(setup, lo_of(setup, event))
        && !is_late(setup, event)
}

/// The decision that an event records, where it is judged.
pub fn judged_decision(setup: &Setup, event: &Event) -> Option<Decision>
    requires slack { setup.now.slack ≤ 10 ^ 18 }
    requires sound { IsSound event.now }
    ensures { result ≡ judged_decision setup.now event.now }
{
    if is_judged(setup, event) {
        event.decision
    } else {
        None
    }
}
