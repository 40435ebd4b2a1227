ghost use Rattle.std.specs.Prelude.{◌≡◌, ◌≢◌, ℕ, IfSome, IfNone, IsSome, ◌↔◌, decimal};
ghost use Rattle.base_types.specs.Revisions.{IsRevision, revision_of};

use std::marker::Model;
use std::str;

/// A number of the cluster's one sequence of writes, from 1 to 2^64 - 2 (Kubernetes API concepts,
/// "Resource versions").
#[derive(Clone, Copy, Debug, Drop, PartialEq, Eq, PartialOrd, Ord, Hash)]
pub struct Revision(u64);

impl Model for Revision {
    ghost Value = { ℕ };

    ghost view = { λ r. r.0 };

    ghost inverse = { λ n. record { 0 = n } };

    ghost invariant = { λ r. IsRevision r.0 };
}

impl Revision {
    /// The revision of this number, where it is one.
    pub fn new(number: u64) -> Option<Revision>
        ensures some { IfSome result (λ r. r ≡ number) }
        ensures exact { IsSome result ↔ IsRevision number }
    {
        if number == 0 || number == u64::MAX {
            return None;
        }
        Some(Revision(number))
    }

    pub fn get(self) -> u64
        ensures value { result ≡ self }
        ensures range { IsRevision result }
    {
        self.0
    }
}

/// Reads a revision in its one spelling: decimal digits without a leading zero.
pub fn read_revision(text: &[u8]) -> Option<Revision>
    ensures some { IfSome result (λ revision. text.now ≡ decimal revision) }
    ensures none { IfNone result ((revision : ℕ) → IsRevision revision
        → text.now ≢ decimal revision) }
{
    if text.is_empty() {
        return None;
    }
    if text[0] < b'1' {
        return None;
    }
    if text[0] > b'9' {
        return None;
    }
    let Ok(digits) = str::from_utf8(text) else {
        return None;
    };
    let Ok(number) = digits.parse::<u64>() else {
        return None;
    };
    Revision::new(number)
}

/// The revision that a text spells, as an object's `resourceVersion` does: a decimal number from 1 to 2^64 - 2 without
/// leading zeros.
pub fn revision_of(text: &str) -> Option<Revision>
    ensures { result ≡ revision_of text.now }
{
    let revision = read_revision(text.as_bytes())?;
    let _number = revision.get();
    Some(revision)
}

/// A moment of the wall clock, in nanoseconds since 1970-01-01T00:00:00Z.
#[derive(Clone, Copy, Drop, PartialEq, Eq, PartialOrd, Ord)]
pub struct Moment(pub i128);
