ghost use Rattle.std.specs.Prelude.{◌≡◌, ◌≢◌, ◌≤◌, ◌↔◌, ℕ, List, Option, Some, None, IsTrue, IsSomeAnd};
ghost use Rattle.history_model.specs.Bounding.{SomewhereIn, ComesIn};
ghost use Rattle.history_model.specs.Histories.{History};
ghost use Rattle.history_model.specs.States.{latest, state};
ghost use Rattle.local_bounds.specs.Asked.{IsKeyAsking};
ghost use Rattle.local_bounds.specs.Known.{IsPastOf};
ghost use Rattle.local_bounds.specs.Sights.{IsSeen, IsSeenWithin};
ghost use Rattle.history_model.specs.Right.{IsShown, IsRefused};
ghost use Rattle.write_groups.specs.Modelled.{item_of, conditions_of};

use crate::asking::KeyDemand;
use crate::coming::last_comer;
use crate::sight::{Sight, is_shown};
use crate::standing::standing_at;
use base_types::{ObjectKey, Revision, Text};
use object_past::Past;
use write_groups::{Item, Preconditions, Window};

/// What is asked, so that the object is so at the place.
pub fn seen_at(past: &Past, key: &ObjectKey, sight: Sight<'_>, place: u64) -> KeyDemand
    ensures { (h : History) → IsPastOf past.now h
        → IsKeyAsking h key.now (λ choice. IsSeen sight.entry (state h choice place key.now))
        result }
{
    let standing = standing_at(past, key, place);
    match standing.version() {
        Some(version) => standing.ask(sight.takes_none(), sight.takes(version)),
        None => standing.ask(sight.takes_none(), false),
    }
}

// An absent object is somewhere where it is absent anyway, or at the window's last place.
fn gone_within(past: &Past, key: &ObjectKey, window: Window) -> KeyDemand
    requires { window.low ≤ window.high }
    ensures { (h : History) → IsPastOf past.now h
        → IsKeyAsking h key.now (λ choice. SomewhereIn window.low window.high
        (λ x. state h choice x key.now ≡ None)) result }
{
    if past.is_absent_within(key, window.low, window.high) {
        return KeyDemand::Free;
    }
    seen_at(past, key, Sight::Gone, window.high)
}

// A present object is somewhere where a version comes, or at the window's first place.
fn there_within(
    past: &Past,
    key: &ObjectKey,
    sight: Sight<'_>,
    window: Window,
    comes: bool,
) -> KeyDemand
    requires { window.low ≤ window.high }
    ensures { (h : History) → IsPastOf past.now h → (IsSeen sight.entry None → ⊥)
        → (IsTrue comes
        ↔ ComesIn h key.now window.low window.high (λ v. IsSeen sight.entry (Some v)))
        → IsKeyAsking h key.now
        (λ choice. IsSeenWithin h choice key.now sight.entry window.low window.high) result }
{
    if comes {
        return KeyDemand::Free;
    }
    seen_at(past, key, sight, window.low)
}

// Whether the item's version comes in the window.
fn item_comes(past: &Past, key: &ObjectKey, item: &Item, window: Window) -> bool
    ensures { (h : History) → IsPastOf past.now h
        → IsTrue result
        ↔ ComesIn h key.now window.low window.high (λ v. IsShown (item_of item.now) (Some v)) }
{
    let revision = item.revision.get();
    match last_comer(
        past,
        key,
        window.low.max(revision),
        window.high.min(revision),
    ) {
        Some(version) => is_shown(item, version),
        None => false,
    }
}

// Whether a version of another revision comes in the window.
fn other_comes(past: &Past, key: &ObjectKey, revision: Revision, window: Window) -> bool
    ensures { (h : History) → IsPastOf past.now h
        → IsTrue result ↔ ComesIn h key.now window.low window.high (λ v. v.revision ≢ revision) }
{
    let Some(version) = last_comer(past, key, window.low, window.high) else {
        return false;
    };
    if version.revision != revision {
        return true;
    }
    last_comer(past, key, window.low, revision.get() - 1).is_some()
}

// Whether a version that doesn't meet the preconditions comes in the window, where these ask for no uid.
fn refused_comes(past: &Past, key: &ObjectKey, asked: &Preconditions, window: Window) -> bool
    requires { asked.now.uid ≡ None }
    ensures { (h : History) → IsPastOf past.now h
        → IsTrue result ↔ ComesIn h key.now window.low window.high
        (λ v. IsRefused (conditions_of asked.now) (Some v)) }
{
    match asked.revision {
        Some(revision) => other_comes(past, key, revision, window),
        None => false,
    }
}

// Whether the latest version has another revision than this one somewhere in the window.
fn has_other_revision(past: &Past, key: &ObjectKey, revision: Revision, window: Window) -> bool
    requires { window.low ≤ window.high }
    ensures { (h : History) → IsPastOf past.now h → IsTrue result
        ↔ SomewhereIn window.low window.high
        (λ x. IsSomeAnd (latest h.versions key.now x) (λ v. v.revision ≢ revision)) }
{
    let Some(version) = past.latest(key, window.low) else {
        return other_comes(past, key, revision, window);
    };
    if version.revision != revision {
        return true;
    }
    other_comes(past, key, revision, window)
}

// Whether the latest version doesn't meet the preconditions somewhere in the window, where these ask for the uid.
fn is_refused_within(
    past: &Past,
    key: &ObjectKey,
    asked: &Preconditions,
    uid: &Text,
    window: Window,
) -> bool
    requires bounds { window.low ≤ window.high }
    requires uid { asked.now.uid ≡ Some uid.now }
    ensures { (h : History) → IsPastOf past.now h → IsTrue result
        ↔ SomewhereIn window.low window.high (λ x. IsSomeAnd (latest h.versions key.now x)
        (λ v. IsRefused (conditions_of asked.now) (Some v))) }
{
    if past.has_other_uid(key, window.low, window.high, uid) {
        return true;
    }
    match asked.revision {
        Some(revision) => has_other_revision(past, key, revision, window),
        None => false,
    }
}

// What a Conflict asks: without a uid the object is there, with a uid it may be absent.
fn refused_within(past: &Past, key: &ObjectKey, asked: &Preconditions, window: Window) -> KeyDemand
    requires { window.low ≤ window.high }
    ensures { (h : History) → IsPastOf past.now h
        → IsKeyAsking h key.now (λ choice. SomewhereIn window.low window.high (λ x. IsRefused
        (conditions_of asked.now) (state h choice x key.now))) result }
{
    let Some(uid) = &asked.uid else {
        let comes = refused_comes(past, key, asked, window);
        return there_within(past, key, Sight::Refused(asked), window, comes);
    };
    if is_refused_within(past, key, asked, uid, window) {
        return KeyDemand::Free;
    }
    gone_within(past, key, window)
}

/// What is asked, so that the object is so somewhere in the window.
pub fn seen_within(past: &Past, key: &ObjectKey, sight: Sight<'_>, window: Window) -> KeyDemand
    ensures { (h : History) → IsPastOf past.now h
        → IsKeyAsking h key.now
        (λ choice. IsSeenWithin h choice key.now sight.entry window.low window.high) result }
{
    if window.low > window.high {
        return KeyDemand::Never;
    }
    match sight {
        Sight::Gone => gone_within(past, key, window),
        Sight::There => {
            let comes = last_comer(past, key, window.low, window.high).is_some();
            there_within(past, key, sight, window, comes)
        }
        Sight::Shown(item) => {
            let comes = item_comes(past, key, item, window);
            there_within(past, key, sight, window, comes)
        }
        Sight::Refused(asked) => refused_within(past, key, asked, window),
        Sight::Nowhere => KeyDemand::Never,
    }
}
