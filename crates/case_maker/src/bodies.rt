ghost use Rattle.std.specs.Prelude.{◌≡◌, ◌++◌, OnOk, string_bytes};
ghost use Rattle.std.specs.List.{join_with_byte};
ghost use Rattle.case_maker.specs.Bodies.{asked_text, held_text, list_text, missing_text, present_texts, success_text};

use crate::exchange::Held;
use base_types::OutOfMemory;

/// Appends an object as a request has it.
pub fn append_asked(log: &mut String, name: usize, number: u32) -> Result<(), OutOfMemory>
    ensures { OnOk result (string_bytes log.new ≡ string_bytes log.old ++ asked_text name number) }
{
    write!(
        log,
        r#"{{"kind":"ConfigMap","apiVersion":"v1","metadata":{{"name":"c{name}","namespace":"d"}},"data":{{"k":"{number}"}}}}"#
    )?;
    Ok(())
}

/// Appends an object as the store has it.
pub fn append_held(log: &mut String, name: usize, held: &Held) -> Result<(), OutOfMemory>
    ensures { OnOk result (string_bytes log.new ≡ string_bytes log.old ++ held_text name held.now) }
{
    write!(
        log,
        r#"{{"kind":"ConfigMap","apiVersion":"v1","metadata":{{"name":"c{name}","namespace":"d","uid":"u{}","resourceVersion":"{}"}},"data":{{"k":"{}"}}}}"#,
        held.created, held.revision, held.written
    )?;
    Ok(())
}

/// Appends the answer to a deletion.
pub fn append_success(log: &mut String, name: usize, held: &Held) -> Result<(), OutOfMemory>
    ensures { OnOk result (string_bytes log.new ≡ string_bytes log.old ++ success_text
        name held.now) }
{
    write!(
        log,
        r#"{{"kind":"Status","apiVersion":"v1","status":"Success","details":{{"name":"c{name}","kind":"configmaps","uid":"u{}"}}}}"#,
        held.created
    )?;
    Ok(())
}

/// Appends the answer to a read of an absent object.
pub fn append_missing(log: &mut String, name: usize) -> Result<(), OutOfMemory>
    ensures { OnOk result (string_bytes log.new ≡ string_bytes log.old ++ missing_text name) }
{
    write!(
        log,
        r#"{{"kind":"Status","apiVersion":"v1","status":"Failure","reason":"NotFound","details":{{"name":"c{name}","kind":"configmaps"}},"code":404}}"#
    )?;
    Ok(())
}

/// Appends the list of all objects that are there, by the numbers of their names.
pub fn append_list(
    log: &mut String,
    revision: u64,
    objects: &[Option<Held>],
) -> Result<(), OutOfMemory>
    ensures { OnOk result (string_bytes log.new ≡ string_bytes log.old ++ list_text revision
        objects.now) }
{
    write!(
        log,
        r#"{{"kind":"ConfigMapList","apiVersion":"v1","metadata":{{"resourceVersion":"{revision}"}},"items":["#
    )?;
    append_present(log, objects)?;
    log.push_str("]}")?;
    Ok(())
}

// The objects that are there, with a comma between two.
fn append_present(log: &mut String, objects: &[Option<Held>]) -> Result<(), OutOfMemory>
    ensures { OnOk result (string_bytes log.new ≡ string_bytes log.old ++ join_with_byte 44
        (present_texts objects.now)) }
{
    let mut follows = false;
    for (name, object) in objects.iter().enumerate() {
        if let Some(held) = object {
            if follows {
                log.push(',')?;
            }
            append_held(log, name, held)?;
            follows = true;
        }
    }
    Ok(())
}
