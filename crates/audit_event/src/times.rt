ghost use Rattle.std.specs.Prelude.{◌≡◌, IfSome, option_and_then};
ghost use Rattle.borrowed_json.specs.View.{view};
ghost use Rattle.base_types.specs.Moments.{IsMoment};
ghost use Rattle.audit_event.specs.Times.{moment_at, times_in, AreSound};

use crate::members::text_at;
use base_types::Moment;
use borrowed_json::JsonValue;
use timestamps::read_moment;

/// When the request was received, and when the event's stage was reached.
#[derive(Clone, Copy)]
pub(crate) struct Times {
    pub(crate) received: Moment,
    pub(crate) staged: Moment,
}

fn moment_at(value: &JsonValue<'_>, name: &str) -> Option<Moment>
    ensures moment { result ≡ moment_at name.now (view value.now) }
    ensures range { IfSome result (λ at. IsMoment at.0) }
{
    read_moment(text_at(value, name)?)
}

pub(crate) fn times_of(value: &JsonValue<'_>) -> Option<Times>
    ensures times { result ≡ times_in (view value.now) }
    ensures sound { IfSome result (λ times. AreSound times.received.0 times.staged.0) }
{
    let received = moment_at(value, "requestReceivedTimestamp")?;
    let staged = moment_at(value, "stageTimestamp")?;
    if staged < received {
        return None;
    }
    Some(Times { received, staged })
}
