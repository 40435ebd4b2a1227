ghost use Rattle.std.specs.Prelude.{◌≡◌, ◌<◌, ◌^◌, length, map, IfOk, All, AllPairs};
ghost use Rattle.history_model.specs.Groups.{AreSpans};
ghost use Rattle.history_model.specs.Histories.{History};
ghost use Rattle.history_model.specs.Judging.{IsOrder};
ghost use Rattle.write_groups.specs.Members.{AreGroupsOf};
ghost use Rattle.write_groups.specs.Modelled.{HasEvents, span_of};
ghost use Rattle.past_building.specs.Timed.{IsTimedOf};

use crate::hiding::clouds_of;
use crate::log_past::{Ended, LogPast};
use crate::versions::Written;
use base_types::{OutOfMemory, Revision};
use clouds::Clouds;
use std::alloc::Global;
use time_windows::Windows;
use write_groups::{Group, Groups, Item, LogEvent, groups_of, order_of, spans_of};

/// What is found of a log before any body is judged.
pub struct Timed {
    /// The numbers of all events in the order of judgement.
    pub order: Vec<u32>,
    /// The writes of each revision.
    pub groups: Groups,
    /// The windows that the groups' spans make.
    pub windows: Windows,
    /// What the unrecorded writes hide of the versions that the snapshot and the groups have.
    pub clouds: Clouds,
}

// Written out, so that a function that lets it go has one call and not the steps of each field.
impl Drop for Timed {
    fn drop(self) {
        let Timed {
            order: _,
            groups,
            windows,
            clouds,
        } = self;
        drop(groups);
        drop(windows);
        drop(clouds);
    }
}

impl Timed {
    /// All that is found of the log.
    pub fn joined(self, ended: Ended) -> LogPast
        ensures { result ≡ record {
          order = self.order;
          windows = self.windows;
          clouds = self.clouds;
          groups = self.groups;
          versions = ended.written.versions;
          judged = ended.written.judged;
          removals = ended.removals;
        } }
    {
        let Timed {
            order,
            groups,
            windows,
            clouds,
        } = self;
        let Ended { written, removals } = ended;
        let Written {
            versions,
            firsts: _,
            earlier: _,
            judged,
        } = written;
        LogPast {
            order,
            windows,
            clouds,
            groups,
            versions,
            judged,
            removals,
        }
    }
}

// The windows that the groups' spans make.
fn windows_of(
    alloc: Global,
    start: Revision,
    events: &[LogEvent],
    groups: &[Group],
) -> Result<Windows, OutOfMemory>
    requires rising { AllPairs (λ a b. a.revision < b.revision) groups.now }
    requires above { All (λ group. start < group.revision) groups.now }
    ensures start { IfOk result (λ windows. windows.start ≡ start) }
    ensures spans { IfOk result (λ windows. (h : History) → HasEvents events.now h → IsOrder h
        → AreGroupsOf h groups.now
        → h.spans ≡ map span_of windows.spans → AreSpans h) }
{
    let spans = spans_of(alloc, start, events, groups)?;
    Windows::build(alloc, start, &spans)
}

/// The order of judgement, the groups, the windows and the clouds of a log, its lines rising, behind a snapshot of the
/// start.
pub fn timed_of(
    alloc: Global,
    start: Revision,
    snapshot: &[Item],
    events: &[LogEvent],
) -> Result<Timed, OutOfMemory>
    requires few { length events.now < 2 ^ 32 }
    requires lines { AllPairs (λ a b. a.line < b.line) events.now }
    ensures { IfOk result (IsTimedOf start snapshot.now events.now) }
{
    let order = order_of(alloc, events)?;
    let groups = groups_of(alloc, start, events, &order)?;
    let windows = windows_of(alloc, start, events, groups.as_slice())?;
    let clouds = clouds_of(alloc, &windows, start, snapshot, events, groups.as_slice())?;
    Ok(Timed {
        order,
        groups,
        windows,
        clouds,
    })
}
