ghost use Rattle.std.specs.Prelude.{◌≡◌, ◌≢◌, ◌++◌, IfOk, IsOk, OnOk, codes, map, string_bytes};
ghost use Rattle.cluster_setup.specs.Telling.{rule_word, code_word, name_at, refusal_words};
ghost use Rattle.verdict_text.specs.Words.{ended};

use crate::fault::{FileFault, SetupRefusal};
use base_types::OutOfMemory;
use setup_file::SetupRule;
use std::alloc::Global;

fn push_rule(text: &mut String, rule: SetupRule) -> Result<(), OutOfMemory>
    ensures { OnOk result (string_bytes text.new ≡ string_bytes text.old ++ rule_word rule) }
{
    let number = rule.number();
    write!(text, "S{number}")?;
    Ok(())
}

// Puts a word that is always the same.
fn push_fixed(text: &mut String, word: &str) -> Result<(), OutOfMemory>
    ensures { OnOk result (string_bytes text.new ≡ string_bytes text.old ++ word.now) }
{
    text.push_str(word)?;
    Ok(())
}

fn push_code(text: &mut String, code: FileFault) -> Result<(), OutOfMemory>
    ensures { OnOk result (string_bytes text.new ≡ string_bytes text.old ++ code_word code) }
{
    match code {
        FileFault::Json => push_fixed(text, "json"),
        FileFault::Kind => push_fixed(text, "kind"),
        FileFault::Pages => push_fixed(text, "pages"),
        FileFault::Unknown => push_fixed(text, "unknown"),
        FileFault::Version => push_fixed(text, "version"),
        FileFault::Twice => push_fixed(text, "twice"),
        FileFault::Revision => push_fixed(text, "revision"),
        FileFault::Rule(rule) => push_rule(text, rule),
    }
}

// The name of the file of this number, counted from 1.
fn name_at(names: &[String], number: usize) -> &str
    ensures { result.now ≡ name_at (map string_bytes names.entry.now) number }
{
    match names.get(number.saturating_sub(1)) {
        Some(name) => name,
        None => "",
    }
}

fn push_resources(text: &mut String, rule: SetupRule) -> Result<(), OutOfMemory>
    ensures { OnOk result (string_bytes text.new
        ≡ string_bytes text.old ++ (codes "resources " ++ rule_word rule)) }
{
    push_fixed(text, "resources ")?;
    push_rule(text, rule)
}

fn push_file(text: &mut String, name: &str, code: FileFault) -> Result<(), OutOfMemory>
    ensures { OnOk result (string_bytes text.new ≡ string_bytes text.old
        ++ (codes "file " ++ (name.now ++ (codes " " ++ code_word code)))) }
{
    write!(text, "file {name} ")?;
    push_code(text, code)
}

fn push_refusal(
    text: &mut String,
    names: &[String],
    refusal: SetupRefusal,
) -> Result<(), OutOfMemory>
    ensures words { OnOk result (string_bytes text.new ≡ string_bytes text.old
        ++ refusal_words (map string_bytes names.now) refusal) }
    ensures memory { IsOk result → refusal ≢ SetupRefusal.OutOfMemory }
{
    match refusal {
        SetupRefusal::Time => push_fixed(text, "time"),
        SetupRefusal::Policy => push_fixed(text, "policy"),
        SetupRefusal::Empty => push_fixed(text, "empty"),
        SetupRefusal::Rule(rule) => push_resources(text, rule),
        SetupRefusal::File { number, code } => push_file(text, name_at(names, number), code),
        SetupRefusal::OutOfMemory => Err(OutOfMemory),
    }
}

/// The words of a refusal of files with these names, as many as were given: `time`, `policy`, `empty`, `resources RULE`
/// or `file FILE CODE`, where FILE is a name and CODE is `json`, `kind`, `pages`, `unknown`, `version`, `twice`,
/// `revision` or a RULE, from `S1` to `S15`. Want of memory has no words, and stays what it is.
pub fn refusal_words(
    alloc: Global,
    names: &[String],
    refusal: SetupRefusal,
) -> Result<String, OutOfMemory>
    ensures words { IfOk result (λ text. string_bytes text
        ≡ refusal_words (map string_bytes names.now) refusal) }
    ensures memory { IsOk result → refusal ≢ SetupRefusal.OutOfMemory }
{
    let mut text = String::new(alloc);
    push_refusal(&mut text, names, refusal)?;
    Ok(text)
}

/// A text as a line.
pub fn line_of(text: String) -> Result<String, OutOfMemory>
    ensures { IfOk result (λ line. string_bytes line ≡ ended (string_bytes text)) }
{
    let mut line = text;
    line.push('\n')?;
    Ok(line)
}
