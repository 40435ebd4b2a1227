ghost use Rattle.std.specs.Prelude.{◌≡◌, ◌≢◌, ◌++◌, List, ℕ, IfOk, OnOk, IfSome, IfNone, IsUtf8, string_bytes};
ghost use Rattle.base_types.specs.Escapes.{escaped};

use crate::foundation::memory::OutOfMemory;
use crate::foundation::text::Text;
use percent_encoding::{
    AsciiSet, DecodeError, NON_ALPHANUMERIC, ascii_set, percent_decode_str, utf8_percent_encode,
};
use std::alloc::Global;

/// What a printed word escapes of ASCII: all but letters, digits, `-`, `.`, `_`, `~` and `:`.
const ESCAPED: AsciiSet = ascii_set!(
    NON_ALPHANUMERIC
        .remove(b'-')
        .remove(b'.')
        .remove(b'_')
        .remove(b'~')
        .remove(b':')
);

/// The text as one word of a printed line: letters, digits, `-`, `.`, `_`, `~` and `:` stay, and each
/// other byte of its UTF-8 becomes `%` and two upper-case hexadecimal digits.
pub fn escape(alloc: Global, text: &Text) -> Result<Text, OutOfMemory>
    ensures { IfOk result (λ word. word ≡ escaped text.now) }
{
    let mut word = String::new(alloc);
    append_escaped(&mut word, text)?;
    Ok(Text::from_string(word))
}

/// Appends what `escape` gives.
pub(crate) fn append_escaped(word: &mut String, text: &Text) -> Result<(), OutOfMemory>
    ensures { OnOk result (string_bytes word.new ≡ string_bytes word.old ++ escaped text.now) }
{
    utf8_percent_encode(text.as_str(), ESCAPED).append_to(word)?;
    Ok(())
}

/// The text that `escape` writes as this word.
pub(crate) fn unescape(alloc: Global, word: &str) -> Result<Option<Text>, OutOfMemory>
    ensures some { IfOk result (λ found. IfSome found (λ text. word.now ≡ escaped text)) }
    ensures utf8 { IfOk result (λ found. IfSome found IsUtf8) }
    ensures none { IfOk result (λ found.
        IfNone found ((text : List ℕ) → IsUtf8 text → word.now ≢ escaped text)) }
{
    let decoded = match percent_decode_str(word).decode_utf8(alloc) {
        Ok(decoded) => decoded.into_owned(alloc)?,
        Err(DecodeError::Utf8(_)) => return Ok(None),
        Err(DecodeError::OutOfMemory) => return Err(OutOfMemory),
    };
    let text = Text::from_string(decoded);
    let spelled = escape(alloc, &text)?;
    if spelled.as_str() == word {
        Ok(Some(text))
    } else {
        Ok(None)
    }
}
