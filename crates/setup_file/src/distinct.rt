ghost use Rattle.std.specs.Prelude.{◌≡◌, ◌==◌, IfOk, map, bytes_eq};
ghost use Rattle.setup_file.specs.Distinct.{are_distinct, pair_eq, key_eq};

use base_types::{ObjectKey, OutOfMemory, Revision, Text};
use hash_seed::{Seed, Seeded};
use std::alloc::Global;
use std::collections::HashSet;

// Each hash begins with the seed, since whoever creates objects chooses some of what is compared.

/// Whether no two texts are equal.
pub fn are_texts_distinct(alloc: Global, texts: &[&Text], seed: Seed) -> Result<bool, OutOfMemory>
    ensures { IfOk result (λ are. are ≡ are_distinct bytes_eq (map (λ text. text.now) texts.now)) }
{
    let mut seen = HashSet::with_hasher(alloc, Seeded::new(seed));
    for text in texts {
        if !seen.insert(*text)? {
            return Ok(false);
        }
    }
    Ok(true)
}

/// Whether no two pairs of texts are equal.
pub fn are_pairs_distinct(
    alloc: Global,
    pairs: &[(&Text, &Text)],
    seed: Seed,
) -> Result<bool, OutOfMemory>
    ensures { IfOk result (λ are. are ≡ are_distinct pair_eq
        (map (λ pair. (pair.0.now, pair.1.now)) pairs.now)) }
{
    let mut seen = HashSet::with_hasher(alloc, Seeded::new(seed));
    for pair in pairs {
        if !seen.insert(*pair)? {
            return Ok(false);
        }
    }
    Ok(true)
}

/// Whether no two keys are equal.
pub fn are_keys_distinct(
    alloc: Global,
    keys: &[&ObjectKey],
    seed: Seed,
) -> Result<bool, OutOfMemory>
    ensures { IfOk result (λ are. are ≡ are_distinct key_eq (map (λ key. key.now) keys.now)) }
{
    let mut seen = HashSet::with_hasher(alloc, Seeded::new(seed));
    for key in keys {
        if !seen.insert(*key)? {
            return Ok(false);
        }
    }
    Ok(true)
}

/// Whether no two revisions are equal.
pub fn are_revisions_distinct(
    alloc: Global,
    revisions: &[&Revision],
    seed: Seed,
) -> Result<bool, OutOfMemory>
    ensures { IfOk result (λ are. are ≡ are_distinct (λ a b. a == b)
        (map (λ revision. revision.now) revisions.now)) }
{
    let mut seen = HashSet::with_hasher(alloc, Seeded::new(seed));
    for revision in revisions {
        if !seen.insert(*revision)? {
            return Ok(false);
        }
    }
    Ok(true)
}
