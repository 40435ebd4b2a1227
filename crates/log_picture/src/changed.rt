ghost use Rattle.std.specs.Prelude.{◌≡◌, ◌++◌, IfOk, OnOk, flat_map, map, string_bytes};
ghost use Rattle.std.specs.BTreeMap.{IsOrdered};
ghost use Rattle.clouds.specs.Kept.{key_order};
ghost use Rattle.log_picture.specs.Changes.{AreChanges, change_row, change_text, changes_text};
ghost use Rattle.log_picture.specs.Tallied.{changed_as};

use crate::gone::TABLE_END;
use crate::limits::CHANGE_LIMIT;
use crate::tallies::{Tallies, tallies_of};
use base_types::{ObjectKey, OutOfMemory, key_text};
use markup::{EscapedText, first_of, push_rest};
use object_past::Version;
use std::alloc::Global;
use std::cmp::Reverse;

/// An object that recorded writes changed. The most changed come first, and of those with as many versions the least
/// key.
#[derive(PartialEq, Eq, PartialOrd, Ord, Drop)]
pub struct Changed {
    /// How many versions recorded writes gave it.
    pub count: Reverse<usize>,
    pub key: ObjectKey,
    /// The revision of the first of these versions.
    pub first: u64,
    /// That of the last.
    pub last: u64,
}

/// What stands in front of the rows of the objects that changed.
pub const CHANGES_HEAD: &str = r#"<h2>The objects that changed most</h2>
<p>How many versions an object got by writes that the log records, creates among them.</p>
<table>
<thead><tr><th scope="col">Object</th><th scope="col">Versions</th><th scope="col">First revision</th>
<th scope="col">Last revision</th></tr></thead>
<tbody>
"#;

/// The objects that recorded writes changed, the most changed first.
pub fn changes_of(alloc: Global, versions: &[Version]) -> Result<Vec<Changed>, OutOfMemory>
    ensures { IfOk result (λ changes. AreChanges versions.now changes.items) }
{
    let tallies = tallies_of(alloc, versions)?;
    let mut changes = listed(alloc, tallies)?;
    changes.sort_unstable();
    Ok(changes)
}

// One for each object with a tally.
fn listed(alloc: Global, tallies: Tallies) -> Result<Vec<Changed>, OutOfMemory>
    ensures all { IfOk result (λ changes. changes.items ≡ map changed_as tallies.entries) }
    ensures ordered { IfOk result (λ changes. IsOrdered key_order tallies) }
{
    let mut changes = Vec::with_capacity(alloc, tallies.len())?;
    for (key, tally) in tallies {
        changes.push(Changed {
            count: Reverse(tally.count),
            key,
            first: tally.first,
            last: tally.last,
        })?;
    }
    Ok(changes)
}

/// Appends the table of the objects that changed most.
#[tactic(auto, unfolding(crate::specs::Changes::changes_text))]
pub fn append_changes(
    alloc: Global,
    text: &mut String,
    changes: &[Changed],
) -> Result<(), OutOfMemory>
    ensures { OnOk result (string_bytes text.new ≡ string_bytes text.old
        ++ changes_text changes.now) }
{
    text.push_str(CHANGES_HEAD)?;
    append_rows(alloc, text, first_of(changes, CHANGE_LIMIT))?;
    text.push_str(TABLE_END)?;
    push_rest(
        text,
        CHANGE_LIMIT,
        changes.len(),
        "Other objects that changed",
    )
}

fn append_rows(alloc: Global, text: &mut String, changes: &[Changed]) -> Result<(), OutOfMemory>
    ensures { OnOk result (string_bytes text.new ≡ string_bytes text.old
        ++ flat_map change_row changes.now) }
{
    for changed in changes {
        append_row(alloc, text, changed)?;
    }
    Ok(())
}

#[tactic(auto, unfolding(crate::specs::Changes::change_text))]
fn append_row(alloc: Global, text: &mut String, changed: &Changed) -> Result<(), OutOfMemory>
    ensures { OnOk result (string_bytes text.new ≡ string_bytes text.old
        ++ change_row changed.now) }
{
    let key = key_text(alloc, &changed.key)?;
    let count = changed.count.0;
    let Changed { first, last, .. } = changed;
    writeln!(
        text,
        "<tr><td>{}</td><td>{count}</td><td>{first}</td><td>{last}</td></tr>",
        EscapedText(key.as_str())
    )?;
    Ok(())
}
