ghost use Rattle.std.specs.Prelude.{◌≡◌, ◌≤ℤ◌, All, ℕ};
ghost use Rattle.history_model.specs.Events as model;
ghost use Rattle.history_model.specs.Histories.{IsEvent};
ghost use Rattle.history_model.specs.Readable.{IsReadable};
ghost use Rattle.log_moments.specs.Nexts.{AreNexts};
ghost use Rattle.log_moments.specs.Views.{IsLogViewOf};
ghost use Rattle.log_context.specs.Histories.{history_of};

use crate::view::LogView;
use log_context::Context;

/// The log of a context, and what it tells; `nexts` has the position of each version's next one.
pub fn view_of<'a>(context: &'a Context, nexts: &'a [Option<usize>]) -> LogView<'a>
    ensures view { AreNexts context.now.versions nexts.now
        → IsLogViewOf result (history_of context.now) }
    ensures readable { IsReadable (history_of context.now) }
    ensures moments { (number : ℕ) (event : model.Event)
        → IsEvent (history_of context.now) number event → event.lo ≤ℤ event.hi }
{
    // For the proof alone: no event of the log is staged before it is received.
    let _events = context.events();
    LogView {
        start: context.setup().start,
        log: context.log(),
        windows: context.windows(),
        clouds: context.clouds(),
        past: context.past(),
        nexts,
    }
}
