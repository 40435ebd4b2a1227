ghost use Rattle.std.specs.Prelude.{◌≡◌, ◌<◌, ◌++◌, ℕ, IfOk, List, OnOk, map, string_bytes};
ghost use Rattle.log_picture.specs.Limits.{IsSpread, rest_of, spread, step_for};

use base_types::OutOfMemory;
use markup::push_rest;
use std::alloc::Global;

// The least step with which at most so many of so many items are taken.
fn step_for(limit: usize, count: usize) -> usize
    ensures { result ≡ step_for limit count }
{
    count.saturating_sub(1) / limit.max(1) + 1
}

/// Every so manyth item from the first one on, so that at most so many are taken.
#[tactic(auto, unfolding(crate::specs::Limits::spread))]
pub fn spread<T: Copy>(alloc: Global, items: &[T], limit: usize) -> Result<Vec<T>, OutOfMemory>
    ensures { IfOk result (λ taken. taken.items ≡ spread limit items.now) }
{
    let step = step_for(limit, items.len());
    let mut taken = Vec::new(alloc);
    for position in 0..items.len() {
        if position % step == 0 {
            taken.push(items[position])?;
        }
    }
    Ok(taken)
}

/// What is taken of a list keeps to the limit, and no lesser step would.
pub fn spread_law<T>()
    ensures { (limit : ℕ) (list : List T) → 0 < limit → IsSpread limit list }
{}

/// Appends how many items are beside those that are taken, if some are.
#[tactic(auto, unfolding(crate::specs::Limits::rest_of))]
pub fn append_rest<T: Copy>(
    alloc: Global,
    text: &mut String,
    items: &[T],
    limit: usize,
    words: &str,
) -> Result<(), OutOfMemory>
    ensures { OnOk result (string_bytes text.new ≡ string_bytes text.old
        ++ rest_of limit items.now words.now) }
{
    let taken = spread(alloc, items, limit)?;
    push_rest(text, taken.len(), items.len(), words)
}

/// Each item where it stands.
pub fn each_of<T>(alloc: Global, items: &[T]) -> Result<Vec<&T>, OutOfMemory>
    ensures { IfOk result (λ all. map (λ item. item.now) all.items ≡ items.now) }
{
    let mut all = Vec::new(alloc);
    for item in items {
        all.push(item)?;
    }
    Ok(all)
}
