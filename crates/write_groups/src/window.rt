ghost use Rattle.std.specs.Prelude.{◌≡◌};
ghost use Rattle.history_model.specs.Histories.{History};
ghost use Rattle.history_model.specs.Windows.{lowest as lowest_place, highest as highest_place, low_end, high_end};
ghost use Rattle.write_groups.specs.Modelled.{HasTimes, event_of};
ghost use Rattle.write_groups.specs.Windowed.{exact_window};

use crate::event::{LogEvent, Reading};
use base_types::{Moment, Revision};
use time_windows::Windows;

/// The places at which an event's answer may be right, both ends among them. The window is empty where `low` lies
/// above `high`.
#[derive(Clone, Copy, PartialEq, Eq)]
pub struct Window {
    pub low: u64,
    pub high: u64,
}

/// The greatest revision that was written before the moment, or the start.
pub fn lowest(windows: &Windows, at: Moment) -> u64
    ensures { (h : History) → HasTimes windows.now h → result ≡ lowest_place h at.0 }
{
    windows.lowest(at)
}

/// The place before the least revision that was written after the moment, or the greatest number.
pub fn highest(windows: &Windows, at: Moment) -> u64
    ensures { (h : History) → HasTimes windows.now h → result ≡ highest_place h at.0 }
{
    windows.highest(at)
}

// One place, where it is reached; else an empty window.
fn exact_window(start: Revision, revision: Revision, high: u64) -> Window
    ensures { result ≡ exact_window start revision high }
{
    if start.get() <= revision.get() && revision.get() <= high {
        return Window {
            low: revision.get(),
            high: revision.get(),
        };
    }
    Window { low: 1, high: 0 }
}

/// The window of an event.
pub fn window_of(windows: &Windows, start: Revision, event: &LogEvent) -> Window
    requires { start ≡ windows.now.start }
    ensures low { (h : History) → HasTimes windows.now h → result.low
        ≡ low_end h (event_of event.now) }
    ensures high { (h : History) → HasTimes windows.now h → result.high
        ≡ high_end h (event_of event.now) }
{
    let high = highest(windows, event.hi);
    match event.reading {
        Reading::MostRecent => Window {
            low: lowest(windows, event.lo),
            high,
        },
        Reading::AnyVersion => Window {
            low: start.get(),
            high,
        },
        Reading::NotOlderThan(revision) => Window {
            low: start.get().max(revision.get()),
            high,
        },
        Reading::Exactly(revision) => exact_window(start, revision, high),
        Reading::Checkpoint(revision) => Window {
            low: revision.get(),
            high: revision.get(),
        },
    }
}
