use base_types::OutOfMemory;
use node_number::NodeId;
use std::alloc::Global;

/// What a request's body asks for. It is judged by the log's bodies, which the past of the objects doesn't look into.
pub trait Bodies {
    ghost use Rattle.std.specs.Prelude.{◌≡◌, ℕ, Bool, Option, IfOk, option_map};

    ghost body: { Self → ℕ → Option ℕ → Bool };

    /// Whether the answer of the event of this number is what its body asked of the tree, or of no object.
    fn is_right(
        &self,
        alloc: Global,
        event: u32,
        before: Option<NodeId>,
    ) -> Result<bool, OutOfMemory>
        ensures { IfOk result
            (λ right. right ≡ body self.now event (option_map (λ node. node.0) before)) };
}
