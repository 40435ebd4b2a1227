ghost use Rattle.std.specs.Prelude.{◌≡◌};

use base_types::{Places, Revision};
use clouds::Clouds;
use object_past::Past;
use time_windows::Windows;
use write_groups::LogEvent;

/// The decisions of a log's authorizer. They are judged by roles and bindings, which claims don't look into.
pub trait Decisions {
    ghost use Rattle.std.specs.Prelude.{ℕ, Bool, IfSome, IfNone};
    ghost use Rattle.base_types.specs.PlaceOrder.{AreLeastPlaces};
    ghost use Rattle.base_types.specs.declared.verdict.placed.Places.{Places};
    ghost use Rattle.event_claims.specs.Given.{AreNoneWithin, IsGivenAt};

    ghost decides: { Self → ℕ → Places → Bool };

    /// The least four places from `low` to `high` at which the authorizer could give the judged decision of the event
    /// of this number.
    fn find(&self, event: u32, low: u64, high: u64) -> Option<Places>
        ensures some { IfSome result
            (AreLeastPlaces (IsGivenAt (decides self.now event) low high)) }
        ensures none { IfNone result (AreNoneWithin (decides self.now event) low high) };
}

/// What is known of a log and of what it tells, by parts.
#[derive(Drop)]
pub struct View<'a, L, D> {
    /// The revision of the snapshot.
    pub start: Revision,
    /// How far an authorizer's caches may be behind, in nanoseconds.
    pub lag: u64,
    /// The events by line, and the checkpoints behind them.
    pub log: &'a [LogEvent],
    pub windows: &'a Windows,
    pub clouds: &'a Clouds,
    pub past: &'a Past,
    pub lists: &'a L,
    pub decisions: &'a D,
    ghost same_start: { start ≡ windows.now.start },
}
