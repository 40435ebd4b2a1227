ghost use Rattle.std.specs.Prelude.{◌≡◌, option_map, slice_get};
ghost use Rattle.history_model.specs.Machine.{step_place};
ghost use Rattle.serial_machine.specs.Stepping.{step_of};

use object_past::{Removal, Version};
use write_groups::LogEvent;

/// One atomic step of the machine.
#[derive(Clone, Copy)]
pub enum Step<'a> {
    /// The version is written at its revision.
    Put(&'a Version),
    /// The removal takes place.
    Remove {
        removal: &'a Removal,
        place: u64,
    },
    /// The event of this number is answered.
    Reply {
        number: u32,
        event: &'a LogEvent,
        place: u64,
    },
}

impl<'a> Step<'a> {
    /// Where the step is.
    pub fn place(self) -> u64
        ensures { result ≡ step_place (step_of self.entry) }
    {
        match self {
            Step::Put(version) => version.revision.get(),
            Step::Remove { removal: _, place } => place,
            Step::Reply {
                number: _,
                event: _,
                place,
            } => place,
        }
    }
}

/// The event of this number.
pub fn event_at(log: &[LogEvent], number: u32) -> Option<&LogEvent>
    ensures { option_map (λ event. event.now) result ≡ slice_get log.now number }
{
    log.get(number as usize)
}
