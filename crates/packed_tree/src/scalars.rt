ghost use Rattle.std.specs.Prelude.{◌≡◌, ◌<◌, ◌^◌, pos, negsuc, IsUtf8};
ghost use Rattle.packed_tree.specs.Frames.{number_in};

use crate::framing::read_number;
use std::str;

/// A number that isn't below zero, from the bytes behind its tag.
pub(crate) fn not_below_zero(bytes: &[u8]) -> i128
    requires { number_in bytes.now < 2 ^ 64 }
    ensures { result ≡ pos (number_in bytes.now) }
{
    let (number, _) = read_number(bytes);
    number as i128
}

/// A number below zero, from the bytes behind its tag.
pub(crate) fn below_zero(bytes: &[u8]) -> i128
    requires { number_in bytes.now < 2 ^ 64 }
    ensures { result ≡ negsuc (number_in bytes.now) }
{
    let (number, _) = read_number(bytes);
    -1 - number as i128
}

/// The text of bytes that are known to be one.
pub(crate) fn str_of(bytes: &[u8]) -> &str
    requires { IsUtf8 bytes.now }
    ensures { result.now ≡ bytes.entry.now }
{
    match str::from_utf8(bytes) {
        Ok(text) => text,
        Err(_) => unreachable!(),
    }
}
