ghost use Rattle.std.specs.Prelude.{◌≡◌, ◌<◌, ◌≤◌, nat_le};
ghost use Rattle.rbac_timeline.specs.Lasting.{IsLast};
ghost use Rattle.rbac_timeline.specs.Pairs.{earlier_pair, is_lowest, pair_with};
ghost use Rattle.rbac_timeline.specs.Searched.{lesser_number};

// Whether a pair is before another by its first number and then by its second, or the same.
fn is_upto(a: (u64, u64), b: (u64, u64)) -> bool
    ensures { result ≡ lesser_number a.0 b.0 (nat_le a.1 b.1) }
{
    a.0 < b.0 || (a.0 == b.0 && a.1 <= b.1)
}

/// The lesser of two pairs, where there are any.
pub fn earlier_pair(a: Option<(u64, u64)>, b: Option<(u64, u64)>) -> Option<(u64, u64)>
    ensures { result ≡ earlier_pair a b }
{
    match (a, b) {
        (Some(a), Some(b)) => Some(if is_upto(a, b) { a } else { b }),
        (Some(a), None) => Some(a),
        (None, b) => b,
    }
}

/// Whether no pair of a range that begins at `low` is before this one.
pub fn is_lowest(low: u64, pair: Option<(u64, u64)>) -> bool
    ensures { result ≡ is_lowest low pair }
{
    match pair {
        Some((first, second)) => first <= low && second <= low,
        None => false,
    }
}

/// A first place with a second one.
pub fn pair_with(second: u64, first: Option<u64>) -> Option<(u64, u64)>
    ensures { result ≡ pair_with second first }
{
    match first {
        Some(first) => Some((first, second)),
        None => None,
    }
}

/// The last place before a change.
pub fn last_before(change: u64, place: u64, high: u64) -> u64
    requires behind { place < change }
    requires within { place ≤ high }
    ensures { IsLast (λ n. n < change) place high result }
{
    high.min(change - 1)
}
