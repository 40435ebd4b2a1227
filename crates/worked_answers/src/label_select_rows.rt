use crate::given::{assert_so, push, tree};
use base_types::Texts;
use base_types::json::Tree;
use label_select::{Selector, SelectorFault, Test, matches, read_selector};
use std::process::Abort;

// The requirements of a selector as `KEY TEST VALUES` lines, or none where the text is no selector.
static SELECTORS: [(&str, Option<&str>); 69] = [
    ("a", Some("a exists;")),
    ("!a", Some("a missing;")),
    ("! a", Some("a missing;")),
    ("a=b", Some("a is b;")),
    ("a==b", Some("a is b;")),
    ("a!=b", Some("a isnot b;")),
    ("a in (x)", Some("a in x;")),
    ("a in (x,y)", Some("a in x y;")),
    ("a notin (x,y,z)", Some("a notin x y z;")),
    ("a,b", Some("a exists;b exists;")),
    (
        "a , !b ,c = d, e  in(f , g ),h!= i",
        Some("a exists;b missing;c is d;e in f g;h isnot i;"),
    ),
    ("a=", Some("a is ;")),
    ("a= ", Some("a is ;")),
    ("a=  ", Some("a is ;")),
    ("a == ", Some("a is ;")),
    ("a!=", Some("a isnot ;")),
    ("a !=  ", Some("a isnot ;")),
    ("a=,b", Some("a is ;b exists;")),
    ("a= ,b", Some("a is ;b exists;")),
    ("a = ,  b", Some("a is ;b exists;")),
    ("a in( x )", Some("a in x;")),
    ("a in  (  x,y  )", Some("a in x y;")),
    ("a-b_c.d/e=F0-_.", Some("a-b_c.d/e is F0-_.;")),
    ("in.a", Some("in.a exists;")),
    ("inn", Some("inn exists;")),
    ("notin/a in (in,notin)", Some("notin/a in in notin;")),
    ("a=in", Some("a is in;")),
    ("a=notin,b", Some("a is notin;b exists;")),
    ("a,a", Some("a exists;a exists;")),
    ("", None),
    (" ", None),
    (" a", None),
    ("a ", None),
    ("a=b ", None),
    ("a in (x) ", None),
    ("!a ", None),
    ("a b", None),
    ("a b=c", None),
    ("a=b c", None),
    ("a,", None),
    (",a", None),
    ("a,,b", None),
    ("a, ", None),
    ("a in ()", None),
    ("a notin ()", None),
    ("a in (x,)", None),
    ("a in (,x)", None),
    ("a in (x y)", None),
    ("a in (x", None),
    ("a in x", None),
    ("a in", None),
    ("a in (x)b", None),
    ("a in (x/y)", None),
    ("ain (x)", None),
    ("a inx (x)", None),
    ("in", None),
    ("notin", None),
    ("!in", None),
    ("in in (x)", None),
    ("notin=a", None),
    ("=a", None),
    ("!", None),
    ("!a=b", None),
    ("a= =b", None),
    ("a===b", None),
    ("a! =b", None),
    ("a>1", None),
    ("a=b/c", None),
    ("\u{e4}=b", None),
];

fn write_values(rt: &impl Abort, line: &mut String, values: &Texts) {
    for value in values {
        push(rt, line, " ");
        push(rt, line, value.as_str());
    }
}

fn write_test(rt: &impl Abort, line: &mut String, test: &Test) {
    match test {
        Test::Exists => push(rt, line, " exists"),
        Test::Missing => push(rt, line, " missing"),
        Test::Is(value) => {
            push(rt, line, " is ");
            push(rt, line, value.as_str());
        }
        Test::IsNot(value) => {
            push(rt, line, " isnot ");
            push(rt, line, value.as_str());
        }
        Test::In(values) => {
            push(rt, line, " in");
            write_values(rt, line, values);
        }
        Test::NotIn(values) => {
            push(rt, line, " notin");
            write_values(rt, line, values);
        }
    }
}

fn lines_of(rt: &(impl Abort + AllocGlobal), selector: &Selector) -> String {
    let mut lines = String::new(rt.alloc());
    for requirement in selector {
        push(rt, &mut lines, requirement.key.as_str());
        write_test(rt, &mut lines, &requirement.test);
        push(rt, &mut lines, ";");
    }
    lines
}

fn is_read_as(rt: &(impl Abort + AllocGlobal), text: &str, wanted: &str) -> bool {
    let selector = read_selector(rt.alloc(), text).expect(rt, "a selector");
    let lines = lines_of(rt, &selector);
    drop(selector);
    lines.as_str() == wanted
}

fn is_refused(rt: &(impl Abort + AllocGlobal), text: &str) -> bool {
    let fault = read_selector(rt.alloc(), text).err();
    fault == Some(SelectorFault::Form)
}

fn is_right(rt: &(impl Abort + AllocGlobal), text: &str, lines: Option<&str>) -> bool {
    match lines {
        Some(lines) => is_read_as(rt, text, lines),
        None => is_refused(rt, text),
    }
}

#[test]
fn selectors(rt: HostRuntime) {
    for (text, lines) in &SELECTORS {
        assert_so(&rt, is_right(&rt, text, *lines), text);
    }
}

// A selector, labels as JSON, and whether it takes them.
static LABELS: [(&str, &str, bool); 30] = [
    ("a", r#"{"a":"x"}"#, true),
    ("a", r#"{"a":""}"#, true),
    ("a", r#"{"b":"x"}"#, false),
    ("a", r#"{"a":7}"#, false),
    ("a", r#"{"a":null}"#, false),
    ("!a", r#"{"a":null}"#, true),
    ("!a", r#"{"a":"x"}"#, false),
    ("!a", "{}", true),
    ("a=x", r#"{"a":"x","b":"y"}"#, true),
    ("a=x", r#"{"a":"y"}"#, false),
    ("a=x", "{}", false),
    ("a=", r#"{"a":""}"#, true),
    ("a=", "{}", false),
    ("a!=x", r#"{"a":"y"}"#, true),
    ("a!=x", r#"{"a":"x"}"#, false),
    ("a!=x", "{}", true),
    ("a!=x", r#"{"a":["x"]}"#, true),
    ("a!=", r#"{"a":""}"#, false),
    ("a in (x,y)", r#"{"a":"y"}"#, true),
    ("a in (x,y)", r#"{"a":"z"}"#, false),
    ("a in (x,y)", "{}", false),
    ("a notin (x,y)", r#"{"a":"z"}"#, true),
    ("a notin (x,y)", r#"{"a":"x"}"#, false),
    ("a notin (x,y)", "{}", true),
    ("a,b=y", r#"{"a":"x","b":"y"}"#, true),
    ("a,b=y", r#"{"a":"x","b":"z"}"#, false),
    ("!a,b=y", r#"{"a":"x","b":"y"}"#, false),
    ("!a,b!=y", r#"["a"]"#, true),
    ("a", r#""a""#, false),
    ("a!=x", "null", true),
];

// Whether a selector takes these labels, or none.
fn takes(rt: &(impl Abort + AllocGlobal), text: &str, labels: Option<&Tree>) -> bool {
    let selector = read_selector(rt.alloc(), text).expect(rt, "a selector");
    let is_taken = matches(&selector, labels);
    drop(selector);
    is_taken
}

fn takes_labels(rt: &(impl Abort + AllocGlobal), text: &str, json: &str) -> bool {
    let labels = tree(rt, json);
    let is_taken = takes(rt, text, Some(&labels));
    drop(labels);
    is_taken
}

#[test]
fn labels(rt: HostRuntime) {
    for (text, json, taken) in &LABELS {
        assert_so(&rt, takes_labels(&rt, text, json) == *taken, text);
    }
    assert_so(&rt, takes(&rt, "!a,b!=c", None), "no labels");
    assert_so(&rt, !takes(&rt, "!a,b", None), "no labels");
}
