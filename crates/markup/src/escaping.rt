ghost use Rattle.std.specs.Prelude.{◌≡◌, ℕ, List, Some, option_map};
ghost use Rattle.markup.specs.Escaping.{IsInert, escaped, reference_of};

use std::fmt;

/// A text of the input, which prints so that it can be the text of an element or the value of an attribute in quotes.
/// `&`, `<`, `>`, `"` and `'` become HTML's character references, and ASCII's control characters but tab and newline
/// become U+FFFD.
#[derive(Clone, Copy)]
pub struct EscapedText<'a>(pub &'a str);

impl fmt::Display for EscapedText<'_> {
    ghost output = { λ told. Some (escaped told.0.now) };

    fn fmt<W: fmt::Write>(&self, f: &mut fmt::Formatter<W>) -> fmt::Result {
        for c in self.0.chars() {
            match reference_of(c) {
                Some(reference) => f.write_str(reference)?,
                None => f.write_char(c)?,
            }
        }
        Ok(())
    }
}

// The reference that is written in place of a character, if one is.
fn reference_of(c: char) -> Option<&'static str>
    ensures { option_map (λ reference. reference.now) result ≡ reference_of c }
{
    match c {
        '&' => Some("&amp;"),
        '<' => Some("&lt;"),
        '>' => Some("&gt;"),
        '"' => Some("&quot;"),
        '\'' => Some("&#39;"),
        '\t' | '\n' => None,
        '\0'..='\x1f' | '\x7f' => Some("&#xFFFD;"),
        _ => None,
    }
}

/// No text, however it is chosen, puts markup into a page where it stands escaped.
pub fn escaped_law()
    ensures { (text : List ℕ) → IsInert (escaped text) }
{}
