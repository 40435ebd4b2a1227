//! Laws of explained and unexplained logs.

ghost use Rattle.std.specs.Prelude.{◌≡◌, ℕ, ◌↔◌, List};
ghost use Rattle.base_types.specs.Choices.{IsChoice};
ghost use Rattle.base_types.specs.Settlement.{IsLeastChoice, BreaksFirst};
ghost use Rattle.base_types.specs.declared.verdict.claim.Claim.{Claim};
ghost use Rattle.base_types.specs.declared.verdict.claim.Reason.{Reason};
ghost use Rattle.base_types.specs.declared.verdict.placed.PlacedLine.{PlacedLine};
ghost use Rattle.history_model.specs.Checking.{IsVerified};
ghost use Rattle.history_model.specs.Events.{Event};
ghost use Rattle.history_model.specs.Exact.{AreExact};
ghost use Rattle.history_model.specs.Histories.{History, IsEvent, ranges};
ghost use Rattle.history_model.specs.Local.{AreRightUpTo};
ghost use Rattle.history_model.specs.Outcomes.{Outcome, Explained, Unexplained, Write, AreWrites, IsOutcome};
ghost use Rattle.history_model.specs.Outcomes.{IsLeastOfRuns, shown_low, shown_high};
ghost use Rattle.history_model.specs.Placed.{ArePlacedLines, placement_of};
ghost use Rattle.history_model.specs.Readable.{IsReadable, HaveOneLog};
ghost use Rattle.history_model.specs.Runs.{IsRun, IsExplainedUpTo};

/// The log is explained up to n exactly where some choice makes each of the first n events right.
pub fn explained_law()
    ensures { (h : History) (n : ℕ) → IsReadable h
        → IsExplainedUpTo h n ↔ ((choice : List ℕ) × IsChoice (ranges h) choice × AreRightUpTo h n choice) }
{}

/// Exact claims and what settles them give the outcome: the least choice with the lines that it places, or
/// the first event that breaks with its code and the writes in its window.
pub fn outcome_law()
    ensures explained { (h : History) (claims : List Claim) (choice : List ℕ) (lines : List PlacedLine)
        → IsReadable h → AreExact h claims → IsLeastChoice (ranges h) claims choice → ArePlacedLines h choice lines
        → IsOutcome h (Explained lines) }
    ensures unexplained { (h : History) (claims : List Claim) (number : ℕ) (event : Event) (reason : Reason)
        (writes : List Write)
        → IsReadable h → AreExact h claims → IsEvent h number event
        → BreaksFirst (ranges h) claims h.order number reason
        → AreWrites h (shown_low h event reason) (shown_high h event reason) writes
        → IsOutcome h (Unexplained number reason (shown_low h event reason) (shown_high h event reason) writes) }
{}

/// The printed placement is a run, whose choice is the least of all runs, and its check finds no fault.
pub fn printed_law()
    ensures run { (h : History) (choice : List ℕ) (lines : List PlacedLine)
        → IsReadable h → IsLeastOfRuns h choice → ArePlacedLines h choice lines
        → IsRun h (placement_of h lines) × ((placement_of h lines).choice ≡ choice) }
    ensures verified { (h : History) (choice : List ℕ) (lines : List PlacedLine)
        → IsReadable h → IsLeastOfRuns h choice → ArePlacedLines h choice lines → IsVerified h lines }
{}

/// A history has one outcome.
pub fn one_outcome_law()
    ensures { (h : History) (a b : Outcome) → IsReadable h → IsOutcome h a → IsOutcome h b → a ≡ b }
{}

/// A setup and a log have one order of judgement, one list of spans, one of versions and one of removals.
pub fn one_list_law()
    ensures { (g h : History) → HaveOneLog g h → IsReadable g → IsReadable h
        → (g.order ≡ h.order) × (g.spans ≡ h.spans) × (g.versions ≡ h.versions) × (g.removals ≡ h.removals) }
{}
