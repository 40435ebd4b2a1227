//! Laws of local bounds: at which one place of its window an answer turns on the choice of the removals'
//! places, and which bound on which range that is.

ghost use Rattle.std.specs.Prelude.{◌≡◌, ◌<◌, ◌≤◌, ℕ, ◌⊎◌, ◌↔◌, Bool, List, Option, Some, None, IsSome, IsSomeAnd};
ghost use Rattle.std.specs.Prelude.{AllPairs, Contains};
ghost use Rattle.base_types.specs.Choices.{HavePlaces, IsChoice, Meets, MeetsAll};
ghost use Rattle.base_types.specs.declared.verdict.claim.Bound.{Bound};
ghost use Rattle.base_types.specs.declared.verdict.claim.Range.{Range};
ghost use Rattle.base_types.specs.declared.kubernetes.key.ObjectKey.{ObjectKey};
ghost use Rattle.history_model.specs.Bounding.{SomewhereIn, IsAbsentAnyway, ComesIn, IsRemovalAt, absence_bound};
ghost use Rattle.history_model.specs.Bounding.{presence_bound, Demand, demand_key, IsAsked, IsNever, IsBounded};
ghost use Rattle.history_model.specs.Bounding.{AreListBounds, IsOpen};
ghost use Rattle.history_model.specs.Clouds.{IsCloudedWithin};
ghost use Rattle.history_model.specs.Events.{Text, Item, Event, Listing, Made, Removed, Saw, SawNone, SawSome};
ghost use Rattle.history_model.specs.Events.{SawOther, Listed};
ghost use Rattle.history_model.specs.Histories.{History, Version, Removal, ranges};
ghost use Rattle.history_model.specs.Local.{AnswerHolds};
ghost use Rattle.history_model.specs.Making.{MeetsConditions, CouldHaveFound};
ghost use Rattle.history_model.specs.Readable.{IsReadable};
ghost use Rattle.history_model.specs.Right.{IsShown, IsRefused, IsListRight};
ghost use Rattle.history_model.specs.States.{latest, state};
ghost use Rattle.history_model.specs.Windows.{InWindow, low_end, high_end};
ghost use Rattle.history_model.specs.Words.{At, word};

/// At one place an object is absent, or present, exactly under one bound on the range of its removal.
/// Without a removal its latest version is always there.
pub fn bound_law()
    ensures absence { (h : History) (choice : List ℕ) (key : ObjectKey) (place position : ℕ) (v : Version)
        (removal : Removal)
        → IsReadable h → IsChoice (ranges h) choice → latest h.versions key place ≡ Some v
        → IsRemovalAt h position v removal
        → (state h choice place key ≡ None) ↔ Meets choice (absence_bound position removal place) }
    ensures presence { (h : History) (choice : List ℕ) (key : ObjectKey) (place position : ℕ) (v : Version)
        (removal : Removal)
        → IsReadable h → IsChoice (ranges h) choice → latest h.versions key place ≡ Some v
        → IsRemovalAt h position v removal
        → (state h choice place key ≡ Some v) ↔ Meets choice (presence_bound position removal place) }
    ensures kept { (h : History) (choice : List ℕ) (key : ObjectKey) (place : ℕ) (v : Version)
        → IsReadable h → IsChoice (ranges h) choice → latest h.versions key place ≡ Some v
        → ((removal : Removal) → Contains h.removals removal → removal.last ≡ v.revision → ⊥)
        → state h choice place key ≡ Some v }
    ensures none { (h : History) (choice : List ℕ) (key : ObjectKey) (place : ℕ)
        → IsReadable h → IsChoice (ranges h) choice → latest h.versions key place ≡ None
        → state h choice place key ≡ None }
{}

/// A NotFound holds where its key is clouded in the window, or absent there whatever is chosen, or absent at
/// the window's last place.
pub fn absent_law()
    ensures { (h : History) (choice : List ℕ) (number : ℕ) (event : Event) (key : ObjectKey)
        → IsReadable h → IsChoice (ranges h) choice → event.answer ≡ SawNone key → low_end h event ≤ high_end h event
        → AnswerHolds h choice number event ↔ (IsCloudedWithin h key (low_end h event) (high_end h event)
        ⊎ (SomewhereIn (low_end h event) (high_end h event) (IsAbsentAnyway h key)
        ⊎ (state h choice (high_end h event) key ≡ None))) }
{}

/// An AlreadyExists holds where its key is clouded in the window, or some version of it comes there, or it
/// is present at the window's first place.
pub fn present_law()
    ensures { (h : History) (choice : List ℕ) (number : ℕ) (event : Event) (key : ObjectKey)
        → IsReadable h → IsChoice (ranges h) choice → event.answer ≡ SawSome key → low_end h event ≤ high_end h event
        → AnswerHolds h choice number event ↔ (IsCloudedWithin h key (low_end h event) (high_end h event)
        ⊎ (ComesIn h key (low_end h event) (high_end h event) (λ v. Unit {0})
        ⊎ IsSomeAnd (state h choice (low_end h event) key) (λ v. Unit {0}))) }
{}

/// A shown object holds where its key is clouded in the window, or its version comes there, or is present at
/// the window's first place.
pub fn shown_law()
    ensures { (h : History) (choice : List ℕ) (number : ℕ) (event : Event) (item : Item)
        → IsReadable h → IsChoice (ranges h) choice → event.answer ≡ Saw item → low_end h event ≤ high_end h event
        → AnswerHolds h choice number event ↔ (IsCloudedWithin h item.key (low_end h event) (high_end h event)
        ⊎ (ComesIn h item.key (low_end h event) (high_end h event) (λ v. IsShown item (Some v))
        ⊎ IsShown item (state h choice (low_end h event) item.key))) }
{}

/// The same of a write that found its revision, which it must have been able to.
pub fn found_law()
    ensures { (h : History) (choice : List ℕ) (number : ℕ) (event : Event) (item : Item) (created : Bool)
        → IsReadable h → IsChoice (ranges h) choice → event.answer ≡ Made item created → word h number event ≡ At
        → low_end h event ≤ high_end h event
        → AnswerHolds h choice number event ↔ (IsCloudedWithin h item.key (low_end h event) (high_end h event)
        ⊎ (CouldHaveFound h (record { number = number; event = event; item = item; created = created })
        × (ComesIn h item.key (low_end h event) (high_end h event) (λ v. IsShown item (Some v))
        ⊎ IsShown item (state h choice (low_end h event) item.key)))) }
{}

/// A removal without a range holds at clouded places alone.
pub fn unplaced_law()
    ensures { (h : History) (choice : List ℕ) (number : ℕ) (event : Event) (key : ObjectKey) (uid : Text)
        → IsReadable h → IsChoice (ranges h) choice → event.answer ≡ Removed key uid → word h number event ≡ At
        → AnswerHolds h choice number event ↔ IsCloudedWithin h key (low_end h event) (high_end h event) }
{}

/// A Conflict holds where its key is clouded in the window; else without a uid as a version that doesn't
/// meet the conditions, and with a uid where the latest version is none or doesn't meet them, or the key is
/// absent.
pub fn refused_law()
    ensures without_uid { (h : History) (choice : List ℕ) (number : ℕ) (event : Event) (key : ObjectKey)
        → IsReadable h → IsChoice (ranges h) choice → event.answer ≡ SawOther key → event.conditions.uid ≡ None
        → low_end h event ≤ high_end h event
        → AnswerHolds h choice number event ↔ (IsCloudedWithin h key (low_end h event) (high_end h event)
        ⊎ (ComesIn h key (low_end h event) (high_end h event) (λ v. MeetsConditions event.conditions (Some v) → ⊥)
        ⊎ IsSomeAnd (state h choice (low_end h event) key) (λ v. MeetsConditions event.conditions (Some v) → ⊥))) }
    ensures with_uid { (h : History) (choice : List ℕ) (number : ℕ) (event : Event) (key : ObjectKey)
        → IsReadable h → IsChoice (ranges h) choice → event.answer ≡ SawOther key → IsSome event.conditions.uid
        → low_end h event ≤ high_end h event
        → AnswerHolds h choice number event ↔ (IsCloudedWithin h key (low_end h event) (high_end h event)
        ⊎ (SomewhereIn (low_end h event) (high_end h event) (λ x. IsRefused event.conditions (latest h.versions key x))
        ⊎ SomewhereIn (low_end h event) (high_end h event) (IsAbsentAnyway h key)
        ⊎ (state h choice (high_end h event) key ≡ None))) }
{}

/// A list holds at its revision alone.
pub fn listed_law()
    ensures { (h : History) (choice : List ℕ) (number : ℕ) (event : Event) (listing : Listing)
        → IsReadable h → IsChoice (ranges h) choice → event.answer ≡ Listed listing
        → AnswerHolds h choice number event ↔ (InWindow h event listing.revision
        × IsListRight h number listing listing.revision (state h choice listing.revision)) }
{}

/// Where no range is empty, bounds on different ranges, each with room, are met by one choice.
pub fn choice_law()
    ensures { (ranges : List Range) (bounds : List Bound) → HavePlaces ranges
        → AllPairs (λ a b. a.range < b.range) bounds
        → ((bound : Bound) → Contains bounds bound → IsOpen ranges bound)
        → (choice : List ℕ) × IsChoice ranges choice × MeetsAll choice bounds }
{}

/// At its revision a list asks of each key nothing, or one bound on the range of the key's own removal, or what never
/// holds. Bounds on one range are of one key, so that no two keys ask for one range.
pub fn list_law()
    ensures bounds { (h : History) (choice : List ℕ) (number place : ℕ) (listing : Listing) (bounds : List Bound)
        → IsReadable h → IsChoice (ranges h) choice → AreListBounds h number listing place bounds
        → IsListRight h number listing place (state h choice place) ↔ MeetsAll choice bounds }
    ensures never { (h : History) (choice : List ℕ) (number place : ℕ) (listing : Listing) (d : Demand)
        → IsReadable h → IsChoice (ranges h) choice → IsAsked listing d → IsNever h number place d
        → IsListRight h number listing place (state h choice place) → ⊥ }
    ensures own_range { (h : History) (number place : ℕ) (a b : Demand) (x y : Bound)
        → IsReadable h → IsBounded h number place a x → IsBounded h number place b y
        → x.range ≡ y.range → demand_key a ≡ demand_key b }
{}
