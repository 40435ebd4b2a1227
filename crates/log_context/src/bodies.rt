ghost use Rattle.std.specs.Prelude.{◌≡◌, ◌<◌, ℕ, Bool, Option, Some, IfOk, length, slice_get};
ghost use Rattle.std.specs.Prelude.{option_map, option_and_then};
ghost use Rattle.request_bodies.specs.Right.{is_body_right};
ghost use Rattle.log_context.specs.Histories.{body_test, made_node};

use audit_event::Event;
use base_types::OutOfMemory;
use base_types::json::Tree;
use node_number::NodeId;
use node_pool::Pool;
use past_building::Bodies;
use request_bodies::is_body_right;
use setup_file::Setup;
use std::alloc::Global;
use write_groups::{LogEvent, Shown};

/// The bodies of a log's requests and answers, as its setup judges them.
#[derive(Clone, Copy)]
pub struct RequestBodies<'a> {
    pub setup: &'a Setup,
    pub events: &'a [Event],
    pub log: &'a [LogEvent],
    pub pool: &'a Pool,
}

// The tree that a write was answered with, by its number.
fn made_node(event: &LogEvent) -> Option<NodeId>
    ensures { option_map (λ node. node.0) result ≡ made_node event.now.answer }
{
    match &event.answer {
        Shown::Made { item, .. } => Some(item.node),
        _ => None,
    }
}

fn tree_at(pool: &Pool, node: Option<NodeId>) -> Result<Option<Tree>, OutOfMemory>
    ensures { IfOk result (λ tree. tree ≡ option_and_then (slice_get pool.now.trees)
        (option_map (λ node. node.0) node)) }
{
    let Some(node) = node else {
        return Ok(None);
    };
    if node.0 >= pool.len() {
        return Ok(None);
    }
    Ok(Some(pool.tree(node)?))
}

// The tree that the write of this number was answered with, by its number.
fn made_at(log: &[LogEvent], number: u32) -> Option<NodeId>
    ensures { option_map (λ node. node.0) result ≡ option_and_then (λ event. made_node event.answer)
        (slice_get log.now number) }
{
    made_node(log.get(number as usize)?)
}

impl<'a> RequestBodies<'a> {
    // Whether a write was answered, by the tree of the number `made`, with what its body asked of the tree of another
    // number, or of none.
    fn is_answer_right(
        &self,
        alloc: Global,
        recorded: &Event,
        answered: &Tree,
        made: Option<NodeId>,
        before: Option<NodeId>,
    ) -> Result<bool, OutOfMemory>
        requires { option_and_then (slice_get self.now.pool.now.trees)
            (option_map (λ node. node.0) made) ≡ Some answered.now }
        ensures { IfOk result (λ right. right
            ≡ is_body_right self.now.setup.now recorded.now answered.now
            (option_and_then (slice_get self.now.pool.now.trees)
            (option_map (λ node. node.0) before))) }
    {
        if before == made {
            return is_body_right(alloc, self.setup, recorded, answered, Some(answered));
        }
        let before = tree_at(self.pool, before)?;
        is_body_right(alloc, self.setup, recorded, answered, before.as_ref())
    }
}

impl<'a> Bodies for RequestBodies<'a> {
    ghost body = { λ b. body_test b.setup.now b.events.now b.log.now b.pool.now.trees };

    fn is_right(
        &self,
        alloc: Global,
        event: u32,
        before: Option<NodeId>,
    ) -> Result<bool, OutOfMemory> {
        let Some(recorded) = self.events.get(event as usize) else {
            return Ok(true);
        };
        let made = made_at(self.log, event);
        let Some(answered) = tree_at(self.pool, made)? else {
            return Ok(true);
        };
        let right = self.is_answer_right(alloc, recorded, &answered, made, before);
        drop(answered);
        right
    }
}
