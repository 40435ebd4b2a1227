ghost use Rattle.std.specs.Prelude.{◌≡◌, ◌<◌, IfOk, IfSome, codes, length, option_and_then, slice_get};
ghost use Rattle.answer_class.specs.Bodies.{metadata_at};
ghost use Rattle.log_context.specs.Histories.{history_of};

use crate::context::Context;
use base_types::OutOfMemory;
use base_types::json::Tree;
use label_select::matches;
use node_number::NodeId;

impl Context {
    /// Whether the list that an event was answered with has an object of the tree of this number: each object where the
    /// list has no selector, and else those whose labels it takes.
    pub fn is_listable(&self, event: u32, node: NodeId) -> Result<bool, OutOfMemory>
        ensures { IfOk result (λ takes. takes ≡ (history_of self.now).listable event node.0) }
    {
        let Some(selector) = self.log.selectors.get(&event) else {
            return Ok(true);
        };
        if node.0 >= self.pool.len() {
            return Ok(true);
        }
        let labels = self.labels(node)?;
        Ok(matches(selector, labels.as_ref()))
    }

    // The labels of the object of a number. No other part of it is put together.
    fn labels(&self, node: NodeId) -> Result<Option<Tree>, OutOfMemory>
        requires { node.0 < length self.now.trees }
        ensures { IfOk result (λ labels. labels
            ≡ option_and_then (metadata_at (codes "labels")) (slice_get self.now.trees node.0)) }
    {
        match self.labels_at(node) {
            Some(at) => Ok(Some(self.pool.tree(at)?)),
            None => Ok(None),
        }
    }

    fn labels_at(&self, node: NodeId) -> Option<NodeId>
        requires { node.0 < length self.now.trees }
        ensures found { option_and_then (λ at. slice_get self.now.trees at.0) result
            ≡ option_and_then (metadata_at (codes "labels")) (slice_get self.now.trees node.0) }
        ensures within { IfSome result (λ at. at.0 < length self.now.trees) }
    {
        let metadata = self.pool.member(node, "metadata")?;
        self.pool.member(metadata, "labels")
    }
}
