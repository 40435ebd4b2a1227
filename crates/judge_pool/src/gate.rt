ghost use Rattle.std.specs.Prelude.{ℕ};

use std::marker::Sync;

/// Is told of each event before the event is judged, or of each line's index in its batch before the line is
/// decoded, as by a test that watches the order of work. What it does changes no result. Of a gate that isn't
/// known, only `enter` of a number gives that it has entered: so who promises that has told the gate of it.
pub trait Gate: Sync {
    // What is known of an event, or of a line's index in its batch, once it has entered.
    ghost is_entered: { Self → ℕ → Type 0 };

    /// Tells of an event, or of a line's index.
    fn enter(&self, event: u32)
        ensures { is_entered self.now event };
}

/// The gate that lets all events pass.
#[derive(Clone, Copy, Drop)]
pub struct FreeGate;

impl Gate for FreeGate {
    ghost is_entered = { λ _ _. Unit {0} };

    fn enter(&self, _event: u32) {}
}
