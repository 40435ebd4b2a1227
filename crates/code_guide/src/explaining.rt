ghost use Rattle.std.specs.Prelude.{◌≡◌, ◌↔◌, IfSome, IsSome, map, option_map, string_bytes};
ghost use Rattle.code_guide.specs.Guides.{guides_of, text_of, word_guides};
ghost use Rattle.code_guide.specs.Names.{IsCode};
ghost use Rattle.code_guide.specs.Paragraphs.{IsWhole, TellsLimit};
ghost use Rattle.code_guide.specs.Texts.{Begins, text_in};

use crate::file_codes::file_text;
use crate::limits::limit_text;
use crate::log_codes::log_text;
use crate::making_codes::making_text;
use crate::setup_codes::setup_text;
use crate::statuses::status_text;
use crate::verdict_codes::verdict_text;

/// What a code means, how it comes about on an honest cluster, what to look at and what to do, or none where the words
/// are no code. A code is one word, as `M1`, or two, as `status 3` and `limit line`. The text ends with a newline.
pub fn explain(words: &[String]) -> Option<&'static str>
    ensures text { option_map (λ text. text.now) result ≡ text_of (map string_bytes words.now) }
    ensures some { IsSome result ↔ IsCode (map string_bytes words.now) }
    ensures begins { IfSome result (λ text. Begins (map string_bytes words.now) text.now) }
    ensures whole { IfSome result (λ text. IsWhole text.now) }
    ensures limit { IfSome result (λ text. TellsLimit (map string_bytes words.now) text.now) }
{
    find_text(words)
}

fn find_text(words: &[String]) -> Option<&'static str>
    ensures { option_map (λ text. text.now) result ≡ text_of (map string_bytes words.now) }
{
    match words {
        [code] => word_text(code),
        [family, code] => family_text(family, code),
        _ => None,
    }
}

// The text of a code of one word.
fn word_text(code: &str) -> Option<&'static str>
    ensures { option_map (λ text. text.now) result ≡ text_in word_guides code.now }
{
    let of_input = log_text(code).or(setup_text(code));
    of_input.or(verdict_text(code))
}

// The text of a code of two words.
fn family_text(family: &str, code: &str) -> Option<&'static str>
    ensures { option_map (λ text. text.now) result ≡ text_in (guides_of family.now) code.now }
{
    if family == "status" {
        return status_text(code);
    }
    if family == "limit" {
        return limit_text(code);
    }
    if family == "setup" {
        return making_text(code);
    }
    if family == "file" {
        return file_text(code);
    }
    None
}
