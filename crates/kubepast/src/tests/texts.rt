use std::process::Abort;

/// Puts a text behind another.
pub fn put(rt: &impl Abort, out: &mut String, text: &str) {
    out.push_str(text).expect(rt, "memory");
}

/// Puts a text so many times behind another.
pub fn put_often(rt: &impl Abort, out: &mut String, text: &str, times: usize) {
    for _ in 0..times {
        put(rt, out, text);
    }
}

/// Puts a number behind a text.
pub fn put_number(rt: &(impl Abort + AllocGlobal), out: &mut String, number: usize) {
    let text = format!(in rt.alloc(); "{number}").expect(rt, "memory");
    put(rt, out, text.as_str());
}

/// A text of its own.
pub fn text_of(rt: &(impl Abort + AllocGlobal), text: &str) -> String {
    String::from_str(rt.alloc(), text).expect(rt, "memory")
}

/// A text cut at its first `mark`, or all of it before an empty rest.
pub fn halves(text: &str, mark: char) -> (&str, &str) {
    match text.split_once(mark) {
        Some(both) => both,
        None => (text, ""),
    }
}
