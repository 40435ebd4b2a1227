use crate::given::{assert_so, assert_text, push, spelled};
use log_sift::{Sifting, left_text, sift};
use std::process::Abort;

// Rows of what is said, and of the lines of a log: those behind `+` stay, and those behind `-` are left out. The last
// of them has no newline.
const ROWS: &str = r#"kept 0 left 0
+

1 M1
2 M1
kept 0 left 2
-x
-HEAD"auditID":"a",OPEN

kept 2 left 0
+HEAD"auditID":"a",OPEN}
+HEAD"auditID":"b",OPEN}

2 M1
4 M2
kept 3 left 2
+HEAD"auditID":"a",OPEN}
-x
+HEAD"auditID":"b",OPEN}
-{"kind":"Event","apiVersion":"v1"}
+HEAD"auditID":"c",OPEN}
+

1 M3
2 M4
3 M5
4 M6
5 M7
6 M8
7 M9
8 M10
9 M11
kept 1 left 9
-HEAD"auditID":"a",OPEN,"level":"x"}
-HEAD"auditID":"a",OPEN,"stage":"x"}
-HEAD"auditID":"a",OPEN,"stageTimestamp":"x"}
-HEAD"auditID":"a",OPEN,"n":0.5}
-HEAD"auditID":"",OPEN}
-HEAD"auditID":"a",OPEN,"requestURI":1}
-HEAD"auditID":"a",OPEN,"verb":""}
-HEAD"auditID":"a",OPEN,"user":1}
-HEAD"auditID":"a",OPEN,"responseStatus":1}
+HEAD"auditID":"a",OPEN}

4 M12
kept 4 left 1
+HEAD"auditID":"a",OPEN}
+BLANK
+HEAD"auditID":"a",OPEN}
-HEAD"auditID":"a",OPEN,"responseStatus":{"code":404}}
+HEAD"auditID":"a",OPEN}
+HEAD"auditID":"b",OPEN,"responseStatus":{"code":404}}
+

1 M12
kept 1 left 1
-LIST{"auditID":"a",OPEN},{"auditID":"a",OPEN,"responseStatus":{"code":404}}]}
+HEAD"auditID":"a",OPEN,"responseStatus":{"code":404}}
+

1 M9
3 M12
kept 2 left 2
-LIST{"auditID":"a",OPEN},{"auditID":"b",OPEN,"verb":""}]}
+HEAD"auditID":"a",OPEN,"responseStatus":{"code":404}}
-LIST{"auditID":"b",OPEN},{"auditID":"a",OPEN},{"auditID":"c",OPEN,"verb":""}]}
+HEAD"auditID":"b",OPEN,"responseStatus":{"code":404}}

3 M12
kept 3 left 1
+LIST{"auditID":"a",OPEN},{"auditID":"b",OPEN},{"auditID":"a",OPEN}]}
+LIST{"auditID":"b",OPEN},{"auditID":"a",OPEN}]}
-HEAD"auditID":"b",OPEN,"responseStatus":{"code":404}}
+LIST]}

kept 1 left 0
+BLANK
+
+HEAD"auditID":"a",OPEN}RETURN
+BLANK
+

2 M1
kept 0 left 1
+BLANK
-x"#;

// What a row says, its log, and what stays of that.
#[derive(Drop)]
struct Row {
    said: String,
    log: String,
    kept: String,
}

// Puts a line of a row where it belongs.
fn add_line(rt: &impl Abort, row: &mut Row, line: &str) {
    if let Some(stays) = line.strip_prefix("+") {
        push(rt, &mut row.log, stays);
        push(rt, &mut row.kept, stays);
    } else if let Some(left) = line.strip_prefix("-") {
        push(rt, &mut row.log, left);
    } else {
        push(rt, &mut row.said, line);
    }
}

fn row_of(rt: &(impl Abort + AllocGlobal), text: &str) -> Row {
    let mut row = Row {
        said: String::new(rt.alloc()),
        log: String::new(rt.alloc()),
        kept: String::new(rt.alloc()),
    };
    for line in text.split_inclusive('\n') {
        add_line(rt, &mut row, line);
    }
    row
}

// The bytes that stay of a log.
fn kept_of(rt: &(impl Abort + AllocGlobal), log: &[u8], sifting: &Sifting) -> Vec<u8> {
    let mut kept = Vec::new(rt.alloc());
    for stretch in sifting.stays.as_slice() {
        let bytes = log.get(stretch.start..stretch.end).expect(rt, "bytes");
        kept.extend_from_slice(bytes).expect(rt, "memory");
    }
    kept
}

fn check_kept(rt: &(impl Abort + AllocGlobal), log: &[u8], sifting: &Sifting, wanted: &[u8]) {
    let kept = kept_of(rt, log, sifting);
    assert_so(rt, kept.as_slice() == wanted, "what stays");
}

fn check_left(rt: &(impl Abort + AllocGlobal), sifting: &Sifting, wanted: &str) {
    let text = left_text(rt.alloc(), sifting).expect(rt, "memory");
    assert_text(rt, text.as_str(), wanted);
}

fn check_row(rt: &(impl Abort + AllocGlobal), row: &Row) {
    let log = row.log.as_str().as_bytes();
    let sifting = sift(rt.alloc(), log).expect(rt, "memory");
    check_left(rt, &sifting, row.said.as_str());
    check_kept(rt, log, &sifting, row.kept.as_str().as_bytes());
    drop(sifting);
}

fn check_text(rt: &(impl Abort + AllocGlobal), text: &str) {
    let full = spelled(rt, text);
    let row = row_of(rt, full.as_str());
    check_row(rt, &row);
    drop(row);
}

#[test]
fn sifted_logs(rt: HostRuntime) {
    for text in ROWS.split("\n\n") {
        check_text(&rt, text);
    }
}

// Compares what is said of a line of so many spaces.
fn check_spaces(rt: &(impl Abort + AllocGlobal), count: usize, wanted: &str) {
    let spaces = vec![in rt.alloc(); b' '; count].expect(rt, "memory");
    let sifting = sift(rt.alloc(), spaces.as_slice()).expect(rt, "memory");
    check_left(rt, &sifting, wanted);
    drop(sifting);
}

#[test]
fn long_lines(rt: HostRuntime) {
    check_spaces(&rt, 16_777_216, "kept 0 left 0\n");
    check_spaces(&rt, 16_777_217, "1 limit line\nkept 0 left 1\n");
}
