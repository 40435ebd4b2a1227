//! Laws of what a setup and the events of a log tell.

ghost use Rattle.std.specs.Prelude.{◌≡◌};
ghost use Rattle.log_context.specs.Histories.{history_of};
ghost use Rattle.log_context.specs.Known.{Known};
ghost use Rattle.log_context.specs.Told.{IsTold};

/// A setup and the events of a log tell one history.
pub fn one_history_law()
    ensures { (a b : Known) → IsTold a → IsTold b → a.setup ≡ b.setup → a.events ≡ b.events
        → history_of a ≡ history_of b }
{}
