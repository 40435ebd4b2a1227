ghost use Rattle.std.specs.Prelude.{◌≡◌, ◌<◌, ◌≤◌, ◌^◌, length, ℕ, Some, None, Err, IfOk, IfErr, IfSome, IfNone};
ghost use Rattle.std.specs.Prelude.{OnErr, List, option_map, option_and_then};
ghost use Rattle.std.specs.List.{slice_split, list_all};
ghost use Rattle.std.specs.Char.{is_ascii_digit};
ghost use Rattle.std.specs.Str.Iter.{chars_rest};
ghost use Rattle.base_types.specs.Pointers.{is_slash, escape_of, unescaped, all_unescaped, IsNextChar, pointer_of};
ghost use Rattle.base_types.specs.Pointers.{pointer_text, index_of, child_of, pointed, kid_at, is_index};
ghost use Rattle.base_types.specs.Meaning.{kids_of};

use crate::foundation::{Listed, OutOfMemory, Text};
use crate::json::tree::{Node, Tree, Trees};
use std::alloc::{AllocError, AllocFailed, Global};
use std::str::Chars;
use thiserror::Error;

/// The tokens of a JSON Pointer (RFC 6901), unescaped. Without tokens it points to the whole document.
pub type Pointer = Listed<Text>;

/// Why a text is no JSON Pointer.
#[derive(Clone, Copy, Debug, PartialEq, Eq, Error)]
pub enum PointerFault {
    /// The text isn't in the grammar of RFC 6901 section 3.
    #[error("not a JSON Pointer")]
    Form,
    #[error("out of memory")]
    OutOfMemory,
}

impl From<AllocError> for PointerFault {
    ghost use Rattle.base_types.specs.declared.json.pointers.PointerFault.TheVariants.{OutOfMemory};
    ghost use Rattle.std.specs.Prelude.{◌≡◌};

    ghost from_gives = { λ _ fault. fault ≡ OutOfMemory };

    fn from(_: AllocError) -> PointerFault {
        PointerFault::OutOfMemory
    }
}

impl<T: Drop> From<AllocFailed<T>> for PointerFault {
    ghost use Rattle.base_types.specs.declared.json.pointers.PointerFault.TheVariants.{OutOfMemory};
    ghost use Rattle.std.specs.Prelude.{◌≡◌};

    ghost from_gives = { λ _ fault. fault ≡ OutOfMemory };

    fn from(_: AllocFailed<T>) -> PointerFault {
        PointerFault::OutOfMemory
    }
}

impl From<OutOfMemory> for PointerFault {
    ghost use Rattle.base_types.specs.declared.json.pointers.PointerFault.TheVariants.{OutOfMemory as Refused};
    ghost use Rattle.std.specs.Prelude.{◌≡◌};

    ghost from_gives = { λ _ fault. fault ≡ Refused };

    fn from(_: OutOfMemory) -> PointerFault {
        PointerFault::OutOfMemory
    }
}

/// The pointer that a text writes (RFC 6901 section 3).
pub fn read_pointer(alloc: Global, text: &str) -> Result<Pointer, PointerFault>
    ensures ok { IfOk result (λ tokens. pointer_of text.now ≡ Some tokens) }
    ensures written { IfOk result (λ tokens. pointer_text tokens ≡ text.now) }
    ensures form { result ≡ Err PointerFault.Form → pointer_of text.now ≡ None }
    ensures unwritten { result ≡ Err PointerFault.Form → (tokens : List (List ℕ))
        → pointer_text tokens ≡ text.now → ⊥ }
{
    if text.is_empty() {
        return Ok(Listed::new(alloc));
    }
    match text.strip_prefix('/') {
        Some(rest) => read_tokens(alloc, rest),
        None => Err(PointerFault::Form),
    }
}

// The tokens that a text behind its first `/` writes.
fn read_tokens(alloc: Global, text: &str) -> Result<Pointer, PointerFault>
    ensures ok { IfOk result (λ tokens. all_unescaped (slice_split is_slash text.now)
        ≡ Some tokens) }
    ensures form { result ≡ Err PointerFault.Form → all_unescaped
        (slice_split is_slash text.now) ≡ None }
{
    let mut tokens = Vec::new(alloc);
    let mut rest = text;
    while let Some((part, after)) = rest.split_once('/') {
        tokens.push(unescape(alloc, part)?)?;
        rest = after;
    }
    tokens.push(unescape(alloc, rest)?)?;
    Ok(Listed::from_vec(tokens))
}

// The token that a reference-token writes.
fn unescape(alloc: Global, part: &str) -> Result<Text, PointerFault>
    ensures ok { IfOk result (λ token. unescaped part.now ≡ Some token) }
    ensures form { result ≡ Err PointerFault.Form → unescaped part.now ≡ None }
{
    let mut token = String::with_capacity(alloc, part.len())?;
    let mut rest = part.chars();
    while let Some(meant) = next_char(&mut rest)? {
        token.push(meant)?;
    }
    Ok(Text::from_string(token))
}

// The next character of the token that the rest of a reference-token writes.
fn next_char(rest: &mut Chars) -> Result<Option<char>, PointerFault>
    ensures ok { IfOk result (λ next. IsNextChar (chars_rest rest.old) next (chars_rest rest.new)) }
    ensures form { result ≡ Err PointerFault.Form → unescaped (chars_rest rest.old) ≡ None }
    ensures memory { result ≡ Err PointerFault.OutOfMemory → ⊥ }
{
    match rest.next() {
        None => Ok(None),
        Some('~') => Ok(Some(escape(rest.next())?)),
        Some(first) => Ok(Some(first)),
    }
}

// The character that a `~` with the next character stands for.
fn escape(next: Option<char>) -> Result<char, PointerFault>
    ensures ok { IfOk result (λ meant. option_and_then escape_of next ≡ Some meant) }
    ensures form { OnErr result (option_and_then escape_of next ≡ None) }
    ensures fault { IfErr result (λ fault. fault ≡ PointerFault.Form) }
{
    match next {
        Some('0') => Ok('~'),
        Some('1') => Ok('/'),
        _ => Err(PointerFault::Form),
    }
}

/// The array index that a token is (RFC 6901 section 4), where it is one below 2^64.
pub fn read_index(token: &str) -> Option<usize>
    ensures some { IfSome result (λ n. index_of token.now ≡ Some n) }
    ensures none { IfNone result ((n : ℕ) → index_of token.now ≡ Some n → 2 ^ 64 ≤ n) }
{
    if !is_index(token) {
        return None;
    }
    token.parse::<usize>().ok()
}

fn is_index(token: &str) -> bool
    ensures { result ≡ is_index token.now }
{
    match token.as_bytes() {
        [] => false,
        [b'0', rest @ ..] => rest.is_empty(),
        digits => are_digits(digits),
    }
}

fn are_digits(bytes: &[u8]) -> bool
    ensures { result ≡ list_all is_ascii_digit bytes.now }
{
    bytes.iter().all(|byte| byte.is_ascii_digit())
}

/// The value that a pointer identifies within a tree (RFC 6901 section 4).
pub fn get<'a>(tree: &'a Tree, at: &Pointer) -> Option<&'a Tree>
    ensures { option_map (λ t. t.now) result ≡ pointed at.now tree.now }
{
    let mut here = tree;
    for token in at.as_slice() {
        here = here.child(token.as_str())?;
    }
    Some(here)
}

impl Tree {
    /// The value that one token of a pointer refers to: an object's member, or an array's item.
    pub fn child(&self, token: &str) -> Option<&Tree>
        ensures { option_map (λ t. t.now) result ≡ child_of token.now self.now }
    {
        match &self.node {
            Node::Items(list) => list.item(token),
            Node::Members(list) => list.get(token),
            _ => None,
        }
    }
}

impl Trees {
    /// The index that a token is, where it is that of an item.
    pub fn find(&self, token: &str) -> Option<usize>
        ensures some { IfSome result (λ n. (index_of token.now ≡ Some n) × (n < length self.now)) }
        ensures none { IfNone result (option_and_then (λ n. kid_at n (kids_of self.now))
            (index_of token.now) ≡ None) }
    {
        match read_index(token) {
            Some(index) if index < self.all.len() => Some(index),
            Some(_) => None,
            None => None,
        }
    }

    /// The item at an index, where the token is one.
    pub fn item(&self, token: &str) -> Option<&Tree>
        ensures { option_map (λ t. t.now) result ≡ option_and_then
            (λ n. kid_at n (kids_of self.now)) (index_of token.now) }
    {
        match self.find(token) {
            Some(index) => Some(&self.all[index]),
            None => None,
        }
    }
}
