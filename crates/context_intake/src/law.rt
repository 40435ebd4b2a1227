//! The bytes of a setup and a log are refused in one way, or tell one history.

ghost use Rattle.std.specs.Prelude.{◌≡◌, ℕ, List};
ghost use Rattle.context_intake.specs.Contexts.{IsContextOf, IsRefused};
ghost use Rattle.log_context.specs.Histories.{history_of};
ghost use Rattle.log_context.specs.Known.{Known};

use crate::refusal::Refusal;

/// The bytes have one refusal or one context.
pub fn one_context_law()
    ensures refused { (setup log : List ℕ) (a b : Refusal)
        → IsRefused setup log a → IsRefused setup log b → a ≡ b }
    ensures either { (setup log : List ℕ) (refusal : Refusal) (known : Known)
        → IsRefused setup log refusal → IsContextOf setup log known → ⊥ }
    ensures told { (setup log : List ℕ) (a b : Known)
        → IsContextOf setup log a → IsContextOf setup log b
        → (a.setup ≡ b.setup) × (a.events ≡ b.events) × (history_of a ≡ history_of b) }
{}
