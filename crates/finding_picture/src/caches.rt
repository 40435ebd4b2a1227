ghost use Rattle.std.specs.Prelude.{◌≡◌, ◌++◌, IfOk, OnOk, filter, map, string_bytes};
ghost use Rattle.std.specs.List.{flat_map};
ghost use Rattle.finding_picture.specs.Caches.{caches_rows, caches_section, caches_text, come_row, gone_row};
ghost use Rattle.finding_picture.specs.Caches.{has_come, may_have_gone};

use crate::finding::Finding;
use crate::limits::MOST_ROWS;
use crate::objects::push_maker;
use base_types::{OutOfMemory, key_text};
use log_context::Context;
use markup::{EscapedText, first_of, push_rest};
use object_past::{Removal, Version};
use rbac_timeline::kind_of_key;
use std::alloc::Global;
use write_groups::{LogEvent, line_at};

/// What stands before the range of the caches' places.
pub const BEFORE_CACHES: &str = "<h2>The authorizer's caches</h2>
<p>The four caches (roles, cluster roles, and the bindings of each) may have been at places from ";

/// What stands behind it.
pub const BEHIND_RANGE: &str = ". In that range these came and went:</p>
<table>
<tr><th scope=\"col\">Where</th><th scope=\"col\">Role or binding</th><th scope=\"col\">By</th></tr>
";

/// Appends which roles and bindings came and went where the caches of a decision may have been, for `U14`.
#[tactic(auto, unfolding(crate::specs::Caches::caches_text))]
pub fn push_caches(
    alloc: Global,
    text: &mut String,
    context: &Context,
    finding: &Finding<'_>,
) -> Result<(), OutOfMemory>
    ensures { OnOk result (string_bytes text.new ≡ string_bytes text.old
        ++ caches_text context.now finding.now) }
{
    if finding.reason.number() == 14 {
        return push_caches_section(alloc, text, context, finding.low, finding.high);
    }
    Ok(())
}

#[tactic(auto, unfolding(crate::specs::Caches::caches_section))]
fn push_caches_section(
    alloc: Global,
    text: &mut String,
    context: &Context,
    low: u64,
    high: u64,
) -> Result<(), OutOfMemory>
    ensures { OnOk result (string_bytes text.new ≡ string_bytes text.old
        ++ caches_section context.now low high) }
{
    write!(text, "{BEFORE_CACHES}{low} to {high}{BEHIND_RANGE}")?;
    let come = all_come(alloc, context, low, high)?;
    let gone = all_gone(alloc, context, low, high)?;
    push_caches_rows(alloc, text, context.log(), come.as_slice(), gone.as_slice())
}

#[tactic(auto, unfolding(crate::specs::Caches::caches_rows))]
fn push_caches_rows(
    alloc: Global,
    text: &mut String,
    log: &[LogEvent],
    come: &[&Version],
    gone: &[&Removal],
) -> Result<(), OutOfMemory>
    ensures { OnOk result (string_bytes text.new ≡ string_bytes text.old
        ++ caches_rows log.now (map (λ v. v.now) come.now) (map (λ r. r.now) gone.now)) }
{
    push_all_come(alloc, text, log, first_of(come, MOST_ROWS))?;
    push_all_gone(alloc, text, log, first_of(gone, MOST_ROWS))?;
    text.push_str("</table>\n")?;
    push_rest(
        text,
        MOST_ROWS,
        come.len(),
        "Roles and bindings that came, but aren't listed",
    )?;
    push_rest(
        text,
        MOST_ROWS,
        gone.len(),
        "Roles and bindings that may have gone, but aren't listed",
    )
}

fn has_come(low: u64, high: u64, version: &Version) -> bool
    ensures { result ≡ has_come low high version.now }
{
    let revision = version.revision.get();
    kind_of_key(&version.key).is_some() && (low <= revision && revision <= high)
}

fn may_have_gone(low: u64, high: u64, removal: &Removal) -> bool
    ensures { result ≡ may_have_gone low high removal.now }
{
    let range = removal.range;
    kind_of_key(&removal.key).is_some() && (range.low <= high && low <= range.high)
}

fn all_come(
    alloc: Global,
    context: &Context,
    low: u64,
    high: u64,
) -> Result<Vec<&Version>, OutOfMemory>
    ensures { IfOk result (λ come. map (λ v. v.now) come.items
        ≡ filter (has_come low high) context.now.versions) }
{
    let mut come = Vec::new(alloc);
    for version in context.versions() {
        if has_come(low, high, version) {
            come.push(version)?;
        }
    }
    Ok(come)
}

fn all_gone(
    alloc: Global,
    context: &Context,
    low: u64,
    high: u64,
) -> Result<Vec<&Removal>, OutOfMemory>
    ensures { IfOk result (λ gone. map (λ r. r.now) gone.items
        ≡ filter (may_have_gone low high) context.now.removals) }
{
    let mut gone = Vec::new(alloc);
    for removal in context.past().removals() {
        if may_have_gone(low, high, removal) {
            gone.push(removal)?;
        }
    }
    Ok(gone)
}

fn push_all_come(
    alloc: Global,
    text: &mut String,
    log: &[LogEvent],
    come: &[&Version],
) -> Result<(), OutOfMemory>
    ensures { OnOk result (string_bytes text.new ≡ string_bytes text.old
        ++ flat_map (come_row log.now) (map (λ v. v.now) come.now)) }
{
    for version in come {
        push_come(alloc, text, log, version)?;
    }
    Ok(())
}

fn push_all_gone(
    alloc: Global,
    text: &mut String,
    log: &[LogEvent],
    gone: &[&Removal],
) -> Result<(), OutOfMemory>
    ensures { OnOk result (string_bytes text.new ≡ string_bytes text.old
        ++ flat_map (gone_row log.now) (map (λ r. r.now) gone.now)) }
{
    for removal in gone {
        push_gone(alloc, text, log, removal)?;
    }
    Ok(())
}

#[tactic(auto, unfolding(crate::specs::Caches::come_row))]
fn push_come(
    alloc: Global,
    text: &mut String,
    log: &[LogEvent],
    version: &Version,
) -> Result<(), OutOfMemory>
    ensures { OnOk result (string_bytes text.new ≡ string_bytes text.old
        ++ come_row log.now version.now) }
{
    let key = key_text(alloc, &version.key)?;
    let revision = version.revision.get();
    write!(
        text,
        "<tr><td>revision {revision}</td><td><code>{}</code></td><td>",
        EscapedText(key.as_str())
    )?;
    push_maker(text, log, version.maker)?;
    text.push_str("</td></tr>\n")?;
    Ok(())
}

#[tactic(auto, unfolding(crate::specs::Caches::gone_row))]
fn push_gone(
    alloc: Global,
    text: &mut String,
    log: &[LogEvent],
    removal: &Removal,
) -> Result<(), OutOfMemory>
    ensures { OnOk result (string_bytes text.new ≡ string_bytes text.old
        ++ gone_row log.now removal.now) }
{
    let key = key_text(alloc, &removal.key)?;
    let range = removal.range;
    let line = line_at(log, range.event);
    writeln!(
        text,
        "<tr><td>removed from {} to {}</td><td><code>{}</code></td><td>line {line}</td></tr>",
        range.low,
        range.high,
        EscapedText(key.as_str())
    )?;
    Ok(())
}
