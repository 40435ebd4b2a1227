// What the tests are given: texts and lines.
ghost use Rattle.std.specs.Prelude.{◌≡◌};

use base_types::{Bytes, Text};
use line_reader::Line;
use std::process::Abort;

pub(crate) fn push(rt: &impl Abort, text: &mut String, more: &str) {
    text.push_str(more).expect(rt, "memory");
}

pub(crate) fn line_of(rt: &(impl Abort + AllocGlobal), number: u64, bytes: &[u8]) -> Line
    ensures { result.number ≡ number }
{
    let bytes = bytes.to_vec(rt.alloc()).expect(rt, "memory");
    Line {
        number,
        bytes: Bytes::from_vec(bytes),
    }
}

pub(crate) fn assert_text(rt: &impl Abort, found: &Text, wanted: &str, row: &str) {
    assert_eq!(rt; found.as_str(), wanted, "{row}");
}

/// Stops the test unless this holds of the row.
pub(crate) fn assert_so(rt: &impl Abort, holds: bool, row: &str) {
    assert!(rt; holds, "{row}");
}
