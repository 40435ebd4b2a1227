ghost use Rattle.std.specs.Prelude.{◌≡◌, ℕ, ◌+◌, IsTrue, ◌↔◌, slice_index, IfOk, OnOk, IfErr, IsUtf8};
ghost use Rattle.std.specs.Char.{IsAsciiHexdigit};
ghost use Rattle.percent_encoding.specs.Percent.{percent_decode};
ghost use Rattle.request_attrs.specs.Refusals.{EscapesAreWhole, IsDecodingCause};

use crate::fault::UriFault;
use base_types::Text;
use percent_encoding::{DecodeError, percent_decode_str};
use std::alloc::Global;

/// Whether two hexadecimal digits stand at a position.
fn has_digits_at(path: &[u8], at: usize) -> bool
    ensures { IsTrue result ↔ (IsAsciiHexdigit (slice_index path.now at) × IsAsciiHexdigit
        (slice_index path.now (at + 1))) }
{
    match path.get(at..) {
        Some([high, low, ..]) => high.is_ascii_hexdigit() && low.is_ascii_hexdigit(),
        _ => false,
    }
}

/// Whether two hexadecimal digits follow each `%`.
pub(crate) fn are_escapes_whole(path: &[u8]) -> bool
    ensures { IsTrue result ↔ EscapesAreWhole path.now }
{
    for (i, byte) in path.iter().enumerate() {
        if *byte == b'%' && !has_digits_at(path, i + 1) {
            return false;
        }
    }
    true
}

/// The percent-decoded text.
pub(crate) fn decoded(alloc: Global, path: &str) -> Result<Text, UriFault>
    ensures ok { IfOk result (λ text. text ≡ percent_decode path.now) }
    ensures utf8 { OnOk result (IsUtf8 (percent_decode path.now)) }
    ensures cause { IfErr result (IsDecodingCause path.now) }
{
    match percent_decode_str(path).decode_utf8(alloc) {
        Ok(text) => Ok(Text::from_string(text.into_owned(alloc)?)),
        Err(DecodeError::Utf8(_)) => Err(UriFault::NotText),
        Err(DecodeError::OutOfMemory) => Err(UriFault::OutOfMemory),
    }
}
