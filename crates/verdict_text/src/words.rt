ghost use Rattle.std.specs.Prelude.{◌≡◌, ◌≢◌, ℕ, List, [], ◌∷◌, ◌++◌, IfSome, IfNone, decimal, IsTrue, ◌↔◌, IsUtf8};
ghost use Rattle.verdict_text.specs.Words.{BeginsPlainly, IsNumber, Lacks};

use std::str;

/// The bytes as text, where they are UTF-8.
pub fn as_text(bytes: &[u8]) -> Option<&str>
    ensures some { IfSome result (λ text. text.now ≡ bytes.now) }
    ensures none { IfNone result (¬ (IsUtf8 bytes.now)) }
{
    str::from_utf8(bytes).ok()
}

/// Reads a number in its one spelling: decimal digits without a leading zero.
pub fn read_number(word: &str) -> Option<u64>
    ensures some { IfSome result (λ number. word.now ≡ decimal number) }
    ensures fits { IfSome result IsNumber }
    ensures none { IfNone result ((number : ℕ) → IsNumber number → word.now ≢ decimal number) }
{
    if begins_plainly(word.as_bytes()) {
        word.parse().ok()
    } else {
        None
    }
}

// Neither empty, nor a sign first, nor a needless zero.
fn begins_plainly(word: &[u8]) -> bool
    ensures { IsTrue result ↔ BeginsPlainly word.now }
{
    !word.is_empty() && word[0].is_ascii_digit() && (word[0] != b'0' || word.len() == 1)
}

// The word before the first space, and what follows that space.
fn cut_at_space(text: &str) -> Option<(&str, &str)>
    ensures some { IfSome result (λ parts. text.now ≡ parts.0.now ++ 32 ∷ parts.1.now) }
    ensures whole { IfSome result (λ parts. Lacks 32 parts.0.now) }
    ensures none { IfNone result (Lacks 32 text.now) }
{
    text.split_once(' ')
}

/// Reads a number and the space behind it, and gives what follows.
pub fn read_spaced_number(text: &str) -> Option<(u64, &str)>
    ensures some { IfSome result (λ found. text.now ≡ decimal found.0 ++ 32 ∷ found.1.now) }
    ensures fits { IfSome result (λ found. IsNumber found.0) }
    ensures none { IfNone result ((number : ℕ) (rest : List ℕ) → IsNumber number
        → text.now ≢ decimal number ++ 32 ∷ rest) }
{
    let (word, rest) = cut_at_space(text)?;
    Some((read_number(word)?, rest))
}

/// What follows the front, where the text begins with it.
pub fn after_front<'a>(text: &'a str, front: &str) -> Option<&'a str>
    ensures some { IfSome result (λ rest. text.now ≡ front.now ++ rest.now) }
    ensures none { IfNone result ((rest : List ℕ) → text.now ≢ front.now ++ rest) }
{
    text.strip_prefix(front)
}
