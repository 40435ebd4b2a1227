//! Laws of the serial API machine.

ghost use Rattle.std.specs.Prelude.{◌≡◌, ℕ, ◌≤◌, ◌-◌, ◌↔◌, List, Option, Contains, filter, nat_le};
ghost use Rattle.base_types.specs.Choices.{IsChoice};
ghost use Rattle.base_types.specs.declared.verdict.claim.Reason.{Reason};
ghost use Rattle.history_model.specs.Events.{Event};
ghost use Rattle.history_model.specs.Groups.{Making};
ghost use Rattle.history_model.specs.Histories.{History, Version, IsEvent, ranges};
ghost use Rattle.history_model.specs.Local.{IsLocallyRight};
ghost use Rattle.history_model.specs.Machine.{Step, MayRemove, MeetsPreconditions, Runs, after_all, snapshot_map};
ghost use Rattle.history_model.specs.Machine.{step_place};
ghost use Rattle.history_model.specs.Making.{IsEntryBefore, IsLeastFault};
ghost use Rattle.history_model.specs.Readable.{IsReadable};
ghost use Rattle.history_model.specs.Runs.{Placement, AreSteps, IsOfFirst, IsPlacedUpTo};
ghost use Rattle.history_model.specs.States.{Cut, cuts, state};
ghost use Rattle.history_model.specs.Words.{Makes, word};

/// For every choice and every place that isn't below the start, the machine's map after the writes up to
/// the place is the state there.
pub fn state_law()
    ensures { (h : History) (n : ℕ) (p : Placement) (steps : List Step) (place : ℕ)
        → IsReadable h → IsChoice (ranges h) p.choice → AreSteps h n p steps → h.start ≤ place
        → after_all (snapshot_map h) (filter (λ s. nat_le (step_place s) place) steps) ≡ state h p.choice place }
{}

/// For every choice and every event that makes a revision, the least fault with the map's entry is the
/// least fault with the entry before the revision, which no choice decides.
pub fn makings_law()
    ensures { (h : History) (choice : List ℕ) (number : ℕ) (event : Event) (m : Making)
        (before : Option Version) (found : Option Reason)
        → IsReadable h → IsChoice (ranges h) choice → IsEvent h number event → word h number event ≡ Makes m
        → IsEntryBefore h m before
        → IsLeastFault h m (state h choice (m.item.revision - 1) m.item.key) found ↔ IsLeastFault h m before found }
{}

/// Whether a removal's step is allowed depends on no choice.
pub fn removals_law()
    ensures { (h : History) (choice : List ℕ) (event : Event) (cut : Cut)
        → IsReadable h → IsChoice (ranges h) choice → Contains (cuts h.removals choice) cut
        → MayRemove h event cut.removal (state h choice (cut.place - 1) cut.removal.key)
        ↔ MeetsPreconditions h event cut.removal cut.removal.last }
{}

/// A placement's steps are all allowed exactly where each making, removal and placed answer is right by
/// itself on the state at its place.
pub fn locality_law()
    ensures { (h : History) (n : ℕ) (p : Placement) (steps : List Step)
        → IsReadable h → IsPlacedUpTo h n p → AreSteps h n p steps
        → Runs h (IsOfFirst h n) (snapshot_map h) steps ↔ IsLocallyRight h n p }
{}
