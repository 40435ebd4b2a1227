ghost use Rattle.std.specs.Prelude.{◌≡◌, ◌++◌, OnOk, string_bytes};
ghost use Rattle.markup.specs.Frame.{begin_text, end_text};

use crate::escaping::EscapedText;
use base_types::OutOfMemory;

/// What stands in front of a page's title. The policy lets nothing in but the page's own style.
pub const BEFORE_TITLE: &str = r#"<!DOCTYPE html>
<html lang="en">
<head>
<meta charset="utf-8">
<meta http-equiv="Content-Security-Policy" content="default-src 'none'; style-src 'unsafe-inline'">
<meta name="viewport" content="width=device-width, initial-scale=1">
<title>"#;

/// What stands between a page's title and its sections.
pub const BEHIND_TITLE: &str = r#"</title>
<style>
:root {
  color-scheme: light dark; --ground: #ffffff; --ink: #1b1b1f; --rule: #b9b9c4; --band: #dbe5f6;
  --mark: #1f4e9e; --gone: #9a3a00;
}
@media (prefers-color-scheme: dark) {
  :root {
    --ground: #16161a; --ink: #ececf1; --rule: #4c4c58; --band: #24344f; --mark: #9cc0ff; --gone: #ffb47e;
  }
}
@media print {
  :root {
    color-scheme: light; --ground: #ffffff; --ink: #000000; --rule: #777777; --band: #e4e4e4; --mark: #000000;
    --gone: #000000;
  }
  main { max-width: none; }
  figure, tr { break-inside: avoid; }
  h1, h2, h3 { break-after: avoid; }
}
body { margin: 0; background: var(--ground); color: var(--ink); font: 1rem/1.5 system-ui, sans-serif; }
main { max-width: 72rem; margin: 0 auto; padding: 1rem 1.5rem 3rem; }
h1, h2 { line-height: 1.25; }
h2 { margin-top: 2.5rem; }
figure { margin: 1rem 0; }
table { border-collapse: collapse; margin: 1rem 0; }
th, td { border: 1px solid var(--rule); padding: 0.25rem 0.6rem; text-align: left; vertical-align: top; }
th { white-space: nowrap; }
td, dd, code, pre { overflow-wrap: anywhere; unicode-bidi: isolate; }
dt { font-weight: bold; }
dd { margin: 0 0 0.5rem 1.5rem; }
@media (min-width: 48rem) { td { min-width: 5rem; } }
code, pre { font-family: ui-monospace, monospace; }
pre { white-space: pre-wrap; border-left: 3px solid var(--rule); padding-left: 1rem; }
svg { display: block; width: 100%; height: auto; }
svg text { fill: var(--ink); font: 12px system-ui, sans-serif; }
svg .axis { stroke: var(--ink); stroke-width: 1; }
svg .band { fill: var(--band); stroke: var(--rule); }
svg .tick { stroke: var(--mark); stroke-width: 2; }
svg .bar { fill: none; stroke: var(--gone); stroke-width: 2; }
svg .hatched { fill: none; stroke: var(--gone); stroke-width: 2; stroke-dasharray: 4 3; }
svg .diamond { fill: var(--mark); }
svg .segment { fill: var(--ground); stroke: var(--mark); stroke-width: 2; }
</style>
</head>
<body>
<main>
"#;

/// What stands behind a page's sections.
pub const PAGE_END: &str = "</main>\n</body>\n</html>\n";

/// Appends what stands in front of the sections of a page of this title, up to the begin of its `<main>`.
pub fn push_begin(text: &mut String, title: &str) -> Result<(), OutOfMemory>
    ensures { OnOk result (string_bytes text.new ≡ string_bytes text.old ++ begin_text title.now) }
{
    text.push_str(BEFORE_TITLE)?;
    write!(text, "{}", EscapedText(title))?;
    text.push_str(BEHIND_TITLE)?;
    Ok(())
}

/// Appends what stands behind the sections of a page.
pub fn push_end(text: &mut String) -> Result<(), OutOfMemory>
    ensures { OnOk result (string_bytes text.new ≡ string_bytes text.old ++ end_text) }
{
    text.push_str(PAGE_END)?;
    Ok(())
}
