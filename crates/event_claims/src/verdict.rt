ghost use Rattle.std.specs.Prelude.{◌≡◌};
ghost use Rattle.event_claims.specs.Verdicts.{lesser};
ghost use Rattle.history_model.specs.Right.{answer_code};
ghost use Rattle.write_groups.specs.Modelled.{answer_of};

use base_types::Reason;
use write_groups::Shown;

/// The lesser of two codes, where there are some.
pub fn lesser(code: Option<Reason>, other: Option<Reason>) -> Option<Reason>
    ensures { result ≡ lesser code other }
{
    match (code, other) {
        (Some(a), Some(b)) => {
            if a.number() <= b.number() {
                Some(a)
            } else {
                Some(b)
            }
        }
        (Some(a), None) => Some(a),
        (None, b) => b,
    }
}

/// The code of an answer that isn't right.
pub fn reason_of(answer: &Shown) -> Reason
    ensures { result ≡ answer_code (answer_of answer.now) }
{
    match answer {
        Shown::Made {
            item: _,
            created: _,
        } => Reason::U10,
        Shown::Removed { key: _, uid: _ } => Reason::U9,
        Shown::Opaque { cover: _ } => Reason::U10,
        Shown::Saw { item: _ } => Reason::U10,
        Shown::SawNone { key: _ } => Reason::U11,
        Shown::SawSome { key: _ } => Reason::U12,
        Shown::SawOther { key: _ } => Reason::U12,
        Shown::Listed { listing: _ } => Reason::U13,
        Shown::Free => Reason::U10,
        Shown::Aside => Reason::U10,
    }
}
