// What the tests of several files need: texts, and what stops a test.
use base_types::Text;
use std::process::Abort;

pub(crate) fn text(rt: &(impl Abort + AllocGlobal), text: &str) -> Text {
    Text::from_str(rt.alloc(), text).expect(rt, "memory")
}

/// Stops the test at this row, unless the row is right.
pub(crate) fn check(rt: &impl Abort, is_right: bool, row: &str) {
    assert!(rt; is_right, "at {row}");
}
