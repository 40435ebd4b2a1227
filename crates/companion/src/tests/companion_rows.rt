use crate::running::run;
use crate::tests::desk_files::files;
use base_types::{Bytes, Text};
use cluster_setup::{SetupRefusal, make_setup};
use edge_io::{InputFile, InputFiles, MemoryDesk, MemorySink};
use judge_pool::FreeGate;
use std::marker::Sync;
use std::process::Abort;
use std::thread::Threads;

// Words with a space between two; behind `|` the status that is wanted and, behind a space, the one line that is
// written, the front of what is written and two dots, or `=` and the name of the file that is written.
const CASES: &str = r#"explain M1|0 M1: the line isn't one JSON text..
explain S3|0 S3: ..
explain U14|0 U14: the event records a decision..
explain V1|0 V1: ..
explain status 70|0 status 70: the program was not..
explain limit pool|0 limit pool: the objects..
explain setup time|0 setup time: the time isn't..
explain file json|0 file json: the file isn't..
explain M13|2 usage
explain|2 usage
judge s l|2 usage
sift log|0 =sifted
sift --left log|0 =left-lines
sift|2 usage
setup 2024-05-01T10:00:00Z policy core maps|0 =made
setup 2024-05-01T10:00:00Z policy nodes core|0 =made-nodes
setup 2024-05-01T10:00:00Z policy core pods|0 =made-pods
setup --authorize 2024-05-01T10:00:00Z policy rbac roles bindings cluster-roles cluster-bindings|0 =made-rbac
setup 10:00 policy core maps|3 time
setup 10:00 braces word|3 time
setup 2024-05-01T10:00:00Z core policy maps|3 policy
setup 2024-05-01T10:00:00Z braces core maps|3 policy
setup 2024-05-01T10:00:00Z odd word|3 policy
setup 2024-05-01T10:00:00Z policy core|3 empty
setup 2024-05-01T10:00:00Z policy core rbac|3 empty
setup --authorize 2024-05-01T10:00:00Z policy core maps|3 resources S14
setup 2024-05-01T10:00:00Z policy alone odd maps|3 file odd json
setup 2024-05-01T10:00:00Z policy alone maps word|3 file word json
setup 2024-05-01T10:00:00Z policy core fraction|3 file fraction json
setup 2024-05-01T10:00:00Z policy core alone page|3 file alone kind
setup 2024-05-01T10:00:00Z policy core pod page|3 file pod kind
setup 2024-05-01T10:00:00Z policy core maps no-items|3 file no-items kind
setup 2024-05-01T10:00:00Z policy core page maps|3 file page pages
setup 2024-05-01T10:00:00Z policy maps core page|3 file page pages
setup 2024-05-01T10:00:00Z policy maps core front|3 file front pages
setup 2024-05-01T10:00:00Z policy maps secrets core|3 file secrets unknown
setup 2024-05-01T10:00:00Z policy core maps secrets|3 file secrets unknown
setup 2024-05-01T10:00:00Z policy rbac beta|3 file beta version
setup 2024-05-01T10:00:00Z policy core maps again|3 file maps twice
setup 2024-05-01T10:00:00Z policy core maps pods again|3 file maps twice
setup 2024-05-01T10:00:00Z policy core maps later|3 file later revision
setup 2024-05-01T10:00:00Z policy document no-revision|3 file no-revision revision
setup 2024-05-01T10:00:00Z policy document empty-revision|3 file empty-revision revision
setup 2024-05-01T10:00:00Z policy document zero-revision|3 file zero-revision revision
setup 2024-05-01T10:00:00Z policy document kubectl-list|3 file kubectl-list unknown
setup 2024-05-01T10:00:00Z policy core maps bare|3 file bare S12
setup 2024-05-01T10:00:00Z policy core maps no-uid|3 file no-uid S12
setup 2024-05-01T10:00:00Z policy core maps same-uid|3 file same-uid S13
setup --authorize 2024-05-01T10:00:00Z policy rbac bindings odd-roles cluster-roles cluster-bindings|3 file odd-roles S14
setup --authorize 2024-05-01T10:00:00Z policy rbac roles odd-bindings cluster-roles cluster-bindings|3 file odd-bindings S14
setup 2024-05-01T10:00:00Z policy|2 usage
setup --authorize 2024-05-01T10:00:00Z policy|2 usage
setup --authorize --authorize policy core|2 usage
setup 2024-05-01T10:00:00Z policy core maps core|2 usage
setup 2024-05-01T10:00:00Z policy policy|2 usage
picture made blank|0 <!DOCTYPE html>..
picture made sifted|1 <!DOCTYPE html>..
picture odd sifted|3 setup S1
picture made log|4 malformed 2 M1
picture made made|2 usage
picture - sifted|2 usage
picture made|2 usage
explain status 8|0 status 8: no memory was found; ..
explain status 9|2 usage
explain limit file|0 limit file: a policy or a file..
explain setup resources|0 setup resources: the resources..
explain file revision|0 file revision: the file is a list without a revision..
explain setup revision|2 usage"#;

fn cases() -> &'static str {
    CASES
}

// How many files more a setup is given, where it is given many.
const MANY: u32 = 2_000;

// Such a file.
const NO_RESOURCES: &str = r#"{"kind":"APIResourceList"}"#;

fn text_of(rt: &(impl Abort + AllocGlobal), text: &str) -> String {
    String::from_str(rt.alloc(), text).expect(rt, "memory")
}

fn add_file(rt: &(impl Abort + AllocGlobal), all: &mut InputFiles, piece: &str) {
    if let Some((name, text)) = piece.split_once('\n') {
        let file = InputFile {
            name: Text::from_str(rt.alloc(), name).expect(rt, "memory"),
            bytes: Bytes::from_vec(text_of(rt, text).into_bytes()),
        };
        all.push(file).expect(rt, "memory");
    }
}

// The files, and so many more whose names are the numbers from 0 on.
fn desk_of(rt: &(impl Abort + AllocGlobal), more: u32, failing_read: u64) -> MemoryDesk {
    let mut all = InputFiles::new(rt.alloc());
    for piece in files().split('=') {
        add_file(rt, &mut all, piece);
    }
    for number in 0..more {
        let piece = format!(in rt.alloc(); "{number}\n{}", NO_RESOURCES).expect(rt, "memory");
        add_file(rt, &mut all, piece.as_str());
    }
    MemoryDesk::new(rt.alloc(), all, 64, &[failing_read]).expect(rt, "memory")
}

fn words_of(rt: &(impl Abort + AllocGlobal), text: &str) -> Vec<String> {
    let mut words = Vec::new(rt.alloc());
    for word in text.split(' ') {
        words.push(text_of(rt, word)).expect(rt, "memory");
    }
    words
}

// The status of the program for words, a space, and what it writes, in pieces of 7 bytes.
fn answer_from<R: Threads + Sync + Abort + AllocGlobal>(
    rt: &R,
    words: &[String],
    mut desk: MemoryDesk,
    failing_write: u64,
) -> String {
    let mut sink = MemorySink::new(rt.alloc(), 7, &[failing_write]).expect(rt, "memory");
    let status = run(
        rt,
        rt.alloc(),
        words,
        &mut desk,
        &mut sink,
        &FreeGate,
        &FreeGate,
    );
    let written = sink.written().to_vec(rt.alloc()).expect(rt, "memory");
    let text = String::from_utf8(written).expect(rt, "text");
    format!(in rt.alloc(); "{status} {}", text.as_str()).expect(rt, "memory")
}

// The same for words with a space between two. Reads and writes are counted from 1.
fn answer_of<R: Threads + Sync + Abort + AllocGlobal>(
    rt: &R,
    words: &str,
    failing_read: u64,
    failing_write: u64,
) -> String {
    let given = words_of(rt, words);
    answer_from(rt, &given, desk_of(rt, 0, failing_read), failing_write)
}

// Whether a text is that of a file, behind a front.
fn is_file(text: &str, front: &str, name: &str) -> bool {
    match text.strip_prefix(front) {
        Some(behind) => files()
            .split('=')
            .any(|piece| piece.split_once('\n') == Some((name, behind))),
        None => false,
    }
}

fn is_line(text: &str, line: &str) -> bool {
    match text.strip_suffix('\n') {
        Some(front) => front == line,
        None => false,
    }
}

fn is_wanted(text: &str, wanted: &str) -> bool {
    if let Some((front, name)) = wanted.split_once('=') {
        return is_file(text, front, name);
    }
    match wanted.strip_suffix("..") {
        Some(front) => text.starts_with(front),
        None => is_line(text, wanted),
    }
}

fn is_right<R: Threads + Sync + Abort + AllocGlobal>(rt: &R, case: &str) -> bool {
    match case.split_once('|') {
        Some((words, wanted)) => is_wanted(answer_of(rt, words, 0, 0).as_str(), wanted),
        None => false,
    }
}

fn is_read_fault<R: Threads + Sync + Abort + AllocGlobal>(rt: &R) -> bool {
    let words = "setup 2024-05-01T10:00:00Z policy core maps";
    answer_of(rt, words, 5, 0).as_str() == "5 read fault\n"
}

// What was written before the fault is left.
fn is_write_fault<R: Threads + Sync + Abort + AllocGlobal>(rt: &R) -> bool {
    answer_of(rt, "sift --left log", 0, 3).as_str() == "6 2 M1\n5 M12\nkep"
}

// The answer to a setup of many files, and of one more with this name.
fn answer_to_many<R: Threads + Sync + Abort + AllocGlobal>(rt: &R, last: &str) -> String {
    let mut words = words_of(rt, "setup 2024-05-01T10:00:00Z policy");
    for number in 0..MANY {
        let name = format!(in rt.alloc(); "{number}").expect(rt, "memory");
        words.push(name).expect(rt, "memory");
    }
    words.push(text_of(rt, last)).expect(rt, "memory");
    answer_from(rt, &words, desk_of(rt, MANY, 0), 0)
}

// Many files are read, if their names differ.
fn are_many_read<R: Threads + Sync + Abort + AllocGlobal>(rt: &R) -> bool {
    answer_to_many(rt, "core").as_str() == "3 empty\n"
        && answer_to_many(rt, "0").as_str() == "2 usage\n"
}

// No file is given, as no words can ask for.
fn is_empty(rt: &impl AllocGlobal) -> bool {
    let policy = r#"{"apiVersion":"audit.k8s.io/v1","kind":"Policy","rules":[]}"#;
    let made = make_setup(
        rt.alloc(),
        "2024-05-01T10:00:00Z",
        policy.as_bytes(),
        &[],
        false,
    );
    matches!(&made, Err(SetupRefusal::Empty))
}

// One test for all: each is proved with all that it calls.
#[test]
fn words_are_answered(rt: HostRuntime) {
    for case in cases().split('\n') {
        assert!(&rt; is_right(&rt, case));
    }
    assert!(&rt; is_read_fault(&rt) && is_write_fault(&rt));
    assert!(&rt; are_many_read(&rt) && is_empty(&rt));
}
