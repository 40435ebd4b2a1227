ghost use Rattle.std.specs.Prelude.{◌≡◌, ◌++◌, ◌<◌, ◌+◌, OnOk, string_bytes};
ghost use Rattle.case_maker.specs.Event.{event_text, head_text, path_text, three_digits, time_text, times_text};
ghost use Rattle.case_maker.specs.Event.{two_digits, verb_text, wording_text};
ghost use Rattle.case_maker.specs.Drawn.{wording};

use crate::bodies::{append_asked, append_held, append_list, append_missing, append_success};
use crate::exchange::{Exchange, Held};
use base_types::OutOfMemory;

/// One event: what it does with the object of the drawn name, and the state before it.
#[derive(Drop)]
pub struct Event<'a> {
    pub number: u32,
    pub name: usize,
    pub exchange: Exchange,
    pub revision: u64,
    pub objects: &'a [Option<Held>],
}

/// Appends the line of an event, with its newline.
pub fn append_event(log: &mut String, event: &Event<'_>) -> Result<(), OutOfMemory>
    requires { event.now.number + 3 < 3600000 }
    ensures { OnOk result (string_bytes log.new ≡ string_bytes log.old ++ event_text
        event.now.number (wording event.now)) }
{
    append_head(log, event.number)?;
    append_wording(log, event)?;
    append_times(log, event.number)?;
    Ok(())
}

// From the line's begin to the URI.
fn append_head(log: &mut String, number: u32) -> Result<(), OutOfMemory>
    ensures { OnOk result (string_bytes log.new ≡ string_bytes log.old ++ head_text number) }
{
    write!(
        log,
        r#"{{"kind":"Event","apiVersion":"audit.k8s.io/v1","level":"RequestResponse","auditID":"a{number}","stage":"ResponseComplete","requestURI":""#
    )?;
    Ok(())
}

// From the URI to the answer.
fn append_wording(log: &mut String, event: &Event<'_>) -> Result<(), OutOfMemory>
    ensures { OnOk result (string_bytes log.new ≡ string_bytes log.old ++ wording_text
        (wording event.now)) }
{
    let request = request_of(event);
    append_path(log, request.name)?;
    append_verb(log, request.verb, request.code)?;
    append_asked_member(log, event)?;
    log.push_str(r#","responseObject":"#)?;
    append_answer(log, event)?;
    Ok(())
}

// What is asked.
#[derive(Drop)]
struct Request {
    /// The object that is asked for, or all of them.
    name: Option<usize>,
    verb: &'static str,
    /// The code of the answer.
    code: u16,
}

fn request_of(event: &Event<'_>) -> Request
    ensures path { path_text result.name ≡ (wording event.now).uri }
    ensures verb { result.verb.now ≡ (wording event.now).verb }
    ensures code { result.code ≡ (wording event.now).code }
{
    let name = Some(event.name);
    match event.exchange {
        Exchange::Create(_) => Request {
            name: None,
            verb: "create",
            code: 201,
        },
        Exchange::Miss => Request {
            name,
            verb: "get",
            code: 404,
        },
        Exchange::Update(_) => Request {
            name,
            verb: "update",
            code: 200,
        },
        Exchange::Get(_) => Request {
            name,
            verb: "get",
            code: 200,
        },
        Exchange::Delete(_) => Request {
            name,
            verb: "delete",
            code: 200,
        },
        Exchange::List(_) => Request {
            name: None,
            verb: "list",
            code: 200,
        },
    }
}

fn append_path(log: &mut String, name: Option<usize>) -> Result<(), OutOfMemory>
    ensures { OnOk result (string_bytes log.new ≡ string_bytes log.old ++ path_text name) }
{
    match name {
        None => log.push_str("/api/v1/namespaces/d/configmaps")?,
        Some(name) => write!(log, "/api/v1/namespaces/d/configmaps/c{name}")?,
    }
    Ok(())
}

fn append_verb(log: &mut String, verb: &str, code: u16) -> Result<(), OutOfMemory>
    ensures { OnOk result (string_bytes log.new ≡ string_bytes log.old ++ verb_text verb.now code) }
{
    write!(
        log,
        r#"","verb":"{verb}","user":{{"username":"u"}},"responseStatus":{{"metadata":{{}},"code":{code}}}"#
    )?;
    Ok(())
}

fn append_asked_member(log: &mut String, event: &Event<'_>) -> Result<(), OutOfMemory>
    ensures { OnOk result (string_bytes log.new ≡ string_bytes log.old ++
        (wording event.now).asked) }
{
    match event.exchange {
        Exchange::Create(_) | Exchange::Update(_) => {
            log.push_str(r#","requestObject":"#)?;
            append_asked(log, event.name, event.number)?;
        }
        Exchange::Miss | Exchange::Get(_) | Exchange::Delete(_) | Exchange::List(_) => {}
    }
    Ok(())
}

fn append_answer(log: &mut String, event: &Event<'_>) -> Result<(), OutOfMemory>
    ensures { OnOk result (string_bytes log.new ≡ string_bytes log.old ++
        (wording event.now).answered) }
{
    let name = event.name;
    match &event.exchange {
        Exchange::Create(held) | Exchange::Update(held) | Exchange::Get(held) => {
            append_held(log, name, held)
        }
        Exchange::Miss => append_missing(log, name),
        Exchange::Delete(held) => append_success(log, name, held),
        Exchange::List(_) => append_list(log, event.revision, event.objects),
    }
}

// The times of receipt and of completion, and the line's end.
fn append_times(log: &mut String, number: u32) -> Result<(), OutOfMemory>
    requires { number + 3 < 3600000 }
    ensures { OnOk result (string_bytes log.new ≡ string_bytes log.old ++ times_text number) }
{
    log.push_str(r#","requestReceivedTimestamp":""#)?;
    append_time(log, number)?;
    log.push_str(r#"","stageTimestamp":""#)?;
    append_time(log, number + 3)?;
    log.push_str("\"}\n")?;
    Ok(())
}

// So many milliseconds after 10:00:00.
fn append_time(log: &mut String, millis: u32) -> Result<(), OutOfMemory>
    requires { millis < 3600000 }
    ensures { OnOk result (string_bytes log.new ≡ string_bytes log.old ++ time_text millis) }
{
    log.push_str("2024-05-01T10:")?;
    append_two_digits(log, millis / 60_000)?;
    log.push(':')?;
    append_two_digits(log, millis / 1_000 % 60)?;
    log.push('.')?;
    append_three_digits(log, millis % 1_000)?;
    log.push_str("000Z")?;
    Ok(())
}

fn append_two_digits(log: &mut String, number: u32) -> Result<(), OutOfMemory>
    requires { number < 100 }
    ensures { OnOk result (string_bytes log.new ≡ string_bytes log.old ++ two_digits number) }
{
    write!(log, "{}{}", number / 10, number % 10)?;
    Ok(())
}

fn append_three_digits(log: &mut String, number: u32) -> Result<(), OutOfMemory>
    requires { number < 1000 }
    ensures { OnOk result (string_bytes log.new ≡ string_bytes log.old ++ three_digits number) }
{
    write!(log, "{}{}{}", number / 100, number / 10 % 10, number % 10)?;
    Ok(())
}
