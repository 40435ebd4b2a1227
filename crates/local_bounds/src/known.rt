use base_types::OutOfMemory;
use clouds::Clouds;
use node_number::NodeId;
use object_past::Past;

/// What is known beside the events: the past of the objects, and what unrecorded writes hide.
#[derive(Clone, Copy)]
pub struct Known<'a> {
    pub past: &'a Past,
    pub clouds: &'a Clouds,
}

/// The selectors of lists. They are judged by the events' queries, which the bounds of an answer don't look into.
pub trait Listable {
    ghost use Rattle.std.specs.Prelude.{◌≡◌, ℕ, Bool, IfOk};

    ghost listable: { Self → ℕ → ℕ → Bool };

    /// Whether the selector of the list that the event of this number answers takes the tree. A selector looks into the
    /// tree itself, which its number has to be turned into.
    fn is_listable(&self, event: u32, node: NodeId) -> Result<bool, OutOfMemory>
        ensures { IfOk result (λ takes. takes ≡ listable self.now event node.0) };
}
