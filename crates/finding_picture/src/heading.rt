ghost use Rattle.std.specs.Prelude.{◌≡◌, ◌++◌, IfOk, OnOk, string_bytes};
ghost use Rattle.finding_picture.specs.Heading.{code_name, guide_section, guide_text, heading_text, verdict_text};

use crate::finding::Finding;
use base_types::{OutOfMemory, Reason};
use code_guide::explain;
use markup::EscapedText;
use std::alloc::Global;

/// Appends the verdict, and what the code means.
#[tactic(auto, unfolding(crate::specs::Heading::heading_text))]
pub fn push_heading(
    alloc: Global,
    text: &mut String,
    finding: &Finding<'_>,
) -> Result<(), OutOfMemory>
    ensures { OnOk result (string_bytes text.new ≡ string_bytes text.old
        ++ heading_text finding.now) }
{
    push_verdict(text, finding)?;
    push_guide(alloc, text, finding.reason)
}

#[tactic(auto, unfolding(crate::specs::Heading::verdict_text))]
fn push_verdict(text: &mut String, finding: &Finding<'_>) -> Result<(), OutOfMemory>
    ensures { OnOk result (string_bytes text.new ≡ string_bytes text.old
        ++ verdict_text finding.now) }
{
    let line = finding.line;
    let code = finding.reason.number();
    write!(
        text,
        "<h1>Unexplained</h1>\n<dl>\n<dt>Line</dt><dd>{line}</dd>\n\
        <dt>Audit ID</dt><dd><code>{}</code></dd>\n\
        <dt>Code</dt><dd>U{code}</dd>\n\
        <dt>Places</dt><dd>from {} to {}</dd>\n</dl>\n",
        EscapedText(finding.audit_id.as_str()),
        finding.low,
        finding.high
    )?;
    Ok(())
}

#[tactic(auto, unfolding(crate::specs::Heading::guide_section))]
fn push_guide(alloc: Global, text: &mut String, reason: Reason) -> Result<(), OutOfMemory>
    ensures { OnOk result (string_bytes text.new ≡ string_bytes text.old ++ guide_section reason) }
{
    let guide = guide_of(alloc, reason)?;
    write!(text, "<pre>{}</pre>\n", EscapedText(guide))?;
    Ok(())
}

// What a code means, how it comes about and what to do.
fn guide_of(alloc: Global, reason: Reason) -> Result<&'static str, OutOfMemory>
    ensures { IfOk result (λ guide. guide.now ≡ guide_text reason) }
{
    let mut words = Vec::new(alloc);
    words.push(code_name(alloc, reason)?)?;
    Ok(explain(&words).unwrap_or(""))
}

fn code_name(alloc: Global, reason: Reason) -> Result<String, OutOfMemory>
    ensures { IfOk result (λ name. string_bytes name ≡ code_name reason) }
{
    let number = reason.number();
    Ok(format!(in alloc; "U{number}")?)
}
