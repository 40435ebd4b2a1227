ghost use Rattle.std.specs.Prelude.{◌≡◌, IfOk, bytes_eq, map, string_bytes};
ghost use Rattle.std.specs.List.{list_any};
ghost use Rattle.process_words.specs.Names.{are_distinct};

use base_types::OutOfMemory;
use std::alloc::Global;
use std::collections::BTreeSet;

/// Whether a name is one of these.
pub fn is_among(name: &str, names: &[String]) -> bool
    ensures { result ≡ list_any (bytes_eq name.now) (map string_bytes names.now) }
{
    names.iter().any(|other| name == other.as_str())
}

// Whether no two names are equal, by a set of the names behind each.
fn are_distinct_by_set(alloc: Global, names: &[String]) -> Result<bool, OutOfMemory>
    ensures { IfOk result (λ distinct. distinct ≡ are_distinct (map string_bytes names.now)) }
{
    let mut behind = BTreeSet::new(alloc);
    for at in (0..names.len()).rev() {
        if !behind.insert(names[at].as_str())? {
            return Ok(false);
        }
    }
    Ok(true)
}

// The same with no memory: each name is compared with those behind it.
fn are_distinct_by_name(names: &[String]) -> bool
    ensures { result ≡ are_distinct (map string_bytes names.now) }
{
    for at in 0..names.len() {
        if is_among(&names[at], &names[at + 1..]) {
            return false;
        }
    }
    true
}

/// Whether no two names are equal. A set is faster, but there may be no memory for one.
pub fn are_distinct(alloc: Global, names: &[String]) -> bool
    ensures { result ≡ are_distinct (map string_bytes names.now) }
{
    match are_distinct_by_set(alloc, names) {
        Ok(distinct) => distinct,
        Err(_) => are_distinct_by_name(names),
    }
}
