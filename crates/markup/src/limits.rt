ghost use Rattle.std.specs.Prelude.{◌≡◌, ◌++◌, OnOk, string_bytes, take};
ghost use Rattle.markup.specs.Limits.{rest_text};

use base_types::OutOfMemory;

/// The first items, at most so many.
pub fn first_of<T>(items: &[T], most: usize) -> &[T]
    ensures { result.now ≡ take most items.now }
{
    match items.get(..most) {
        Some(first) => first,
        None => items,
    }
}

/// Appends how many of so many things are beyond the most that are shown, if some are.
#[tactic(auto, unfolding(crate::specs::Limits::rest_text))]
pub fn push_rest(
    text: &mut String,
    most: usize,
    count: usize,
    words: &str,
) -> Result<(), OutOfMemory>
    ensures { OnOk result (string_bytes text.new ≡ string_bytes text.old ++ rest_text most
        count words.now) }
{
    if most < count {
        let rest = count - most;
        writeln!(text, "<p>{words}: {rest}.</p>")?;
    }
    Ok(())
}
