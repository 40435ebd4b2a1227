ghost use Rattle.std.specs.Prelude.{◌≡◌};

use base_types::Revision;
use clouds::Clouds;
use object_past::Past;
use time_windows::Windows;
use write_groups::LogEvent;

/// What is known of a log and of what it tells, by parts.
#[derive(Clone, Copy)]
pub struct LogView<'a> {
    /// The revision of the snapshot.
    pub start: Revision,
    /// The events by line, and the checkpoints behind them.
    pub log: &'a [LogEvent],
    pub windows: &'a Windows,
    pub clouds: &'a Clouds,
    pub past: &'a Past,
    /// By the versions' positions, the position of the key's next one.
    pub nexts: &'a [Option<usize>],
    ghost same_start: { start ≡ windows.now.start },
}
