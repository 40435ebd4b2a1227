ghost use Rattle.std.specs.Prelude.{◌≡◌, ◌<◌, ◌≤◌, option_map, IfSome, IfNone};
ghost use Rattle.rbac_timeline.specs.Searched.{all_at};
ghost use Rattle.base_types.specs.PlaceOrder.{AreLeastPlaces};
ghost use Rattle.log_context.specs.Given.{AreNoneGiven, IsGivenWithin, judged_in, says};
ghost use Rattle.log_context.specs.Histories.{history_of};

use crate::context::Context;
use crate::log::judged_user;
use audit_event::Event;
use base_types::{Decision, Places, Possible};
use write_groups::LogEvent;

// The event of this number and its decision, where that is judged.
fn judged_in<'a>(
    events: &'a [Event],
    log: &[LogEvent],
    number: u32,
) -> Option<(&'a Event, Decision)>
    ensures { option_map (λ judged. (judged.0.now, judged.1)) result
        ≡ judged_in events.now log.now number }
{
    let event = events.get(number as usize)?;
    let decision = log.get(number as usize)?.decision?;
    Some((event, decision))
}

// The least places of a range.
fn first_of(low: u64, high: u64) -> Option<Places>
    ensures some { IfSome result (λ places. (low ≤ high) × (places ≡ all_at low)) }
    ensures none { IfNone result (high < low) }
{
    if low > high {
        return None;
    }
    Some(Places {
        roles: low,
        cluster_roles: low,
        bindings: low,
        cluster_bindings: low,
    })
}

fn says(possible: Possible, decision: Decision) -> bool
    ensures { result ≡ says possible decision }
{
    match decision {
        Decision::Allow => possible.allow,
        Decision::Forbid => possible.forbid,
    }
}

impl Context {
    /// Whether caches at these places could have given the decision of the event of this number, where it is judged.
    pub fn is_given(&self, event: u32, places: &Places) -> bool
        ensures { result ≡ (history_of self.now).decides event places.now }
    {
        match judged_in(self.events.as_slice(), self.log.events.as_slice(), event) {
            Some((recorded, decision)) => {
                let possible = self
                    .timeline
                    .decide(places, judged_user(recorded), &recorded.attrs);
                says(possible, decision)
            }
            None => true,
        }
    }

    /// The least four places from `low` to `high` at which caches could have given the decision of the event of this
    /// number; where none is judged, the least of all.
    pub fn find_decision(&self, event: u32, low: u64, high: u64) -> Option<Places>
        ensures some { IfSome result (AreLeastPlaces (IsGivenWithin
            ((history_of self.now).decides event) low high)) }
        ensures none { IfNone result (AreNoneGiven ((history_of self.now).decides event) low high) }
    {
        match judged_in(self.events.as_slice(), self.log.events.as_slice(), event) {
            Some((recorded, decision)) => self.timeline.find_decision(
                low,
                high,
                judged_user(recorded),
                &recorded.attrs,
                decision,
            ),
            None => first_of(low, high),
        }
    }
}
