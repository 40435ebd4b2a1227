ghost use Rattle.std.specs.Prelude.{◌≡◌};
ghost use Rattle.context_claims.specs.Judging.{gives, selects};
ghost use Rattle.event_claims.specs.Views.{IsViewOf};
ghost use Rattle.log_context.specs.Histories.{history_of};

use base_types::{OutOfMemory, Places};
use event_claims::{Decisions, View};
use local_bounds::Listable;
use log_context::Context;
use node_number::NodeId;

/// A context as the judge of the selectors of lists, and of decisions.
#[derive(Clone, Copy)]
pub struct ContextJudge<'a> {
    pub context: &'a Context,
}

impl<'a> Listable for ContextJudge<'a> {
    ghost listable = { selects };

    fn is_listable(&self, event: u32, node: NodeId) -> Result<bool, OutOfMemory> {
        self.context.is_listable(event, node)
    }
}

impl<'a> Decisions for ContextJudge<'a> {
    ghost decides = { gives };

    fn find(&self, event: u32, low: u64, high: u64) -> Option<Places> {
        self.context.find_decision(event, low, high)
    }
}

/// The log of the judge's context, and what it tells.
pub fn view_of<'a>(judge: &'a ContextJudge<'a>) -> View<'a, ContextJudge<'a>, ContextJudge<'a>>
    ensures view { IsViewOf selects gives result (history_of judge.now.context.now) }
    ensures log { result.log.now ≡ judge.now.context.now.log }
{
    let context = judge.context;
    let setup = context.setup();
    View {
        start: setup.start,
        lag: setup.lag,
        log: context.log(),
        windows: context.windows(),
        clouds: context.clouds(),
        past: context.past(),
        lists: judge,
        decisions: judge,
    }
}
