ghost use Rattle.std.specs.Prelude.{◌≡◌, ℕ, ◌<◌, length, IfOk, All, map, slice_index};
ghost use Rattle.page_chains.specs.Links.{AreSteps};

use base_types::OutOfMemory;
use std::alloc::Global;

// Where the second steps lead to from where the first led to.
fn after(alloc: Global, first: &[usize], second: &[usize]) -> Result<Vec<usize>, OutOfMemory>
    requires { All (λ to. to < length second.now) first.now }
    ensures { IfOk result
        (λ reached. reached.items ≡ map (λ to. slice_index second.now to) first.now) }
{
    let mut reached = Vec::with_capacity(alloc, first.len())?;
    for to in first {
        reached.push(second[*to])?;
    }
    Ok(reached)
}

// Each place, where no step was made.
fn places_below(alloc: Global, count: usize) -> Result<Vec<usize>, OutOfMemory>
    ensures each { IfOk result (λ places. length places.items ≡ count) }
    ensures same { IfOk result
        (λ places. (from : ℕ) → from < count → slice_index places.items from ≡ from) }
{
    let mut places = Vec::with_capacity(alloc, count)?;
    for place in 0..count {
        places.push(place)?;
    }
    Ok(places)
}

/// Where so many steps lead to from each place. Steps are doubled, so the time is that of the logarithm of their
/// number for each place, also where places lead round in a circle.
pub fn reached_after(
    alloc: Global,
    links: &[usize],
    steps: usize,
) -> Result<Vec<usize>, OutOfMemory>
    requires { All (λ to. to < length links.now) links.now }
    ensures { IfOk result (λ reached. AreSteps links.now steps reached.items) }
{
    let mut reached = places_below(alloc, links.len())?;
    let mut stride = Vec::from_slice(alloc, links)?;
    let mut left = steps;
    'doubling: while left > 0 {
        if left % 2 == 1 {
            reached = after(alloc, &reached, &stride)?;
        }
        stride = after(alloc, &stride, &stride)?;
        left /= 2;
    }
    Ok(reached)
}
