ghost use Rattle.std.specs.Prelude.{◌≡◌, IfSome};
ghost use Rattle.base_types.specs.Moments.{IsMoment};
ghost use Rattle.timestamps.specs.Timestamps.{moment_of};

use base_types::Moment;
use jiff::Timestamp;

/// The moment of a text that `jiff` reads as a timestamp (RFC 3339 and more).
pub fn read_moment(text: &str) -> Option<Moment>
    ensures moment { result ≡ moment_of text.now }
    ensures range { IfSome result (λ moment. IsMoment moment.0) }
{
    match text.parse::<Timestamp>() {
        Ok(at) => Some(Moment(at.as_nanosecond())),
        Err(_) => None,
    }
}
