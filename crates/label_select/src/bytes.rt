ghost use Rattle.std.specs.Prelude.{◌≡◌, IfOk, option_map};
ghost use Rattle.std.specs.Str.{IsAscii};
ghost use Rattle.label_select.specs.Bytes.{is_in_class, front, behind, after};

use base_types::{OutOfMemory, Text};
use std::alloc::Global;
use std::str;

/// The bytes of one kind of token.
#[derive(Clone, Copy)]
pub(crate) enum Class {
    Space,
    /// The bytes of a label's value.
    Value,
    /// The bytes of a label's name.
    Key,
}

fn is_value_byte(byte: u8) -> bool
    ensures { result ≡ is_in_class Class.Value byte }
{
    byte.is_ascii_alphanumeric() || byte == b'-' || byte == b'_' || byte == b'.'
}

fn is_in_class(class: Class, byte: u8) -> bool
    ensures { result ≡ is_in_class class byte }
{
    match class {
        Class::Space => byte == b' ',
        Class::Value => is_value_byte(byte),
        Class::Key => is_value_byte(byte) || byte == b'/',
    }
}

/// What is left behind the longest front of bytes of a class.
pub(crate) fn behind(class: Class, bytes: &[u8]) -> &[u8]
    ensures { result.now ≡ behind class bytes.entry.now }
{
    let mut rest = bytes;
    while let [first, more @ ..] = rest {
        if !is_in_class(class, *first) {
            return rest;
        }
        rest = more;
    }
    rest
}

/// The longest front of bytes of a class.
pub(crate) fn front(class: Class, bytes: &[u8]) -> &[u8]
    ensures { result.now ≡ front class bytes.entry.now }
{
    &bytes[..bytes.len() - behind(class, bytes).len()]
}

/// What is left behind this front, where the bytes begin with it.
pub(crate) fn after<'a>(prefix: &[u8], bytes: &'a [u8]) -> Option<&'a [u8]>
    ensures { option_map (λ rest. rest.now) result ≡ after prefix.now bytes.entry.now }
{
    bytes.strip_prefix(prefix)
}

/// The text of a word of bytes below 128.
pub(crate) fn word(alloc: Global, bytes: &[u8]) -> Result<Text, OutOfMemory>
    requires { IsAscii bytes.now }
    ensures { IfOk result (λ text. text ≡ bytes.now) }
{
    match str::from_utf8(bytes) {
        Ok(text) => Text::from_str(alloc, text),
        Err(_) => unreachable!(),
    }
}
