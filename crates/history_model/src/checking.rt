//! Laws of the check of a given placement.

ghost use Rattle.std.specs.Prelude.{◌≡◌, ℕ, List, Some, slice_get};
ghost use Rattle.base_types.specs.Placements.{RisesByLine};
ghost use Rattle.base_types.specs.declared.verdict.placed.PlacedLine.{PlacedLine};
ghost use Rattle.history_model.specs.Checking.{CheckCode, DiffersAt, HasWords, IsFaultless, IsFirstFault};
ghost use Rattle.history_model.specs.Checking.{IsVerified, NoLine};
ghost use Rattle.history_model.specs.Events.{Event};
ghost use Rattle.history_model.specs.Histories.{History, IsEvent};
ghost use Rattle.history_model.specs.Readable.{IsReadable};

/// A placement without a fault is a run with the lines and words of the log.
pub fn verified_law()
    ensures { (h : History) (lines : List PlacedLine) → IsReadable h → IsFaultless h lines → IsVerified h lines }
{}

/// A placement has at most one first fault, and where it has one it isn't verified.
pub fn fault_law()
    ensures one { (h : History) (lines : List PlacedLine) (at other : ℕ) (code different : CheckCode)
        → IsReadable h → IsFirstFault h lines at code → IsFirstFault h lines other different → (at ≡ other)
        × (code ≡ different) }
    ensures fails { (h : History) (lines : List PlacedLine) (at : ℕ) (code : CheckCode)
        → IsReadable h → IsFirstFault h lines at code → IsVerified h lines → ⊥ }
{}

/// Lines that rise and don't differ from the log's stand at the numbers of their events.
pub fn spelling_law()
    ensures { (h : History) (lines : List PlacedLine) → IsReadable h → RisesByLine lines → NoLine (DiffersAt h lines)
        → (number : ℕ) (event : Event) → IsEvent h number event
        → (line : PlacedLine) × (slice_get lines number ≡ Some line) × (line.line ≡ event.line)
        × HasWords h number event line }
{}
