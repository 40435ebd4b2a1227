ghost use Rattle.std.specs.Prelude.{◌≡◌, ◌+◌, ℕ, List, Option, length, Some, None, Err, IfOk, option_map, codes};
ghost use Rattle.base_types.specs.Texts.{◌>>=◌ as ◌and_then◌};
ghost use Rattle.label_select.specs.Bytes.{after};
ghost use Rattle.label_select.specs.Grammar.{Spells};
ghost use Rattle.label_select.specs.Readings.{choose, is_key, key_at, value_at, values_in, list_at, test_at};
ghost use Rattle.label_select.specs.Readings.{requirement_at, selector_of};
ghost use Rattle.label_select.specs.declared.selector.Requirement.{Requirement};
ghost use Rattle.label_select.specs.declared.selector.Test.{Test};

use crate::bytes::{Class, after, behind, front, word};
use crate::selector::{Requirement, Selector, SelectorFault, Test};
use base_types::{OutOfMemory, Text, Texts};
use std::alloc::Global;

fn is_key(word: &[u8]) -> bool
    ensures { result ≡ is_key word.now }
{
    !word.is_empty() && word != b"in".as_slice() && word != b"notin".as_slice()
}

// The key at the beginning, and what is behind it.
fn read_key(alloc: Global, bytes: &[u8]) -> Result<Option<(Text, &[u8])>, OutOfMemory>
    ensures { IfOk result (λ found. option_map (λ parts. (parts.0, parts.1.now)) found
        ≡ key_at bytes.entry.now) }
{
    let key = front(Class::Key, bytes);
    if !is_key(key) {
        return Ok(None);
    }
    Ok(Some((word(alloc, key)?, behind(Class::Key, bytes))))
}

// The value behind spaces, which may be empty, and what is behind it.
fn read_value(alloc: Global, bytes: &[u8]) -> Result<(Text, &[u8]), OutOfMemory>
    ensures { IfOk result (λ parts. (parts.0, parts.1.now) ≡ value_at bytes.entry.now) }
{
    let begun = behind(Class::Space, bytes);
    let value = word(alloc, front(Class::Value, begun))?;
    Ok((value, behind(Class::Value, begun)))
}

// The values up to the closing parenthesis, and what is behind it.
fn read_values(alloc: Global, bytes: &[u8]) -> Result<Option<(Texts, &[u8])>, OutOfMemory>
    ensures { IfOk result (λ found. option_map (λ parts. (parts.0, parts.1.now)) found ≡ values_in
        (length bytes.entry.now + 1) bytes.entry.now) }
{
    let mut values = Texts::new(alloc);
    let mut rest = bytes;
    loop {
        let (value, more) = read_value(alloc, rest)?;
        if value.is_empty() {
            return Ok(None);
        }
        values.push(value)?;
        let end = behind(Class::Space, more);
        if let Some(left) = after(b")", end) {
            return Ok(Some((values, left)));
        }
        let Some(next) = after(b",", end) else {
            return Ok(None);
        };
        rest = next;
    }
}

// The values in parentheses, and what is behind them.
fn read_list(alloc: Global, bytes: &[u8]) -> Result<Option<(Texts, &[u8])>, OutOfMemory>
    ensures { IfOk result (λ found. option_map (λ parts. (parts.0, parts.1.now)) found
        ≡ list_at bytes.entry.now) }
{
    match after(b"(", behind(Class::Space, bytes)) {
        Some(items) => read_values(alloc, items),
        None => Ok(None),
    }
}

// The test of a list of values, where its operator is here, or else that the label is there; and what is behind it.
fn read_list_test<'a>(
    alloc: Global,
    operator: &'a [u8],
    bytes: &'a [u8],
) -> Result<Option<(Test, &'a [u8])>, OutOfMemory>
    ensures { IfOk result (λ found. option_map (λ parts. (parts.0, parts.1.now)) found ≡
        choose {A = Option (Test × List ℕ)} (after (codes "in") operator.entry.now)
        (λ rest. list_at rest and_then λ list. Some (Test.In list.0, list.1))
        (choose (after (codes "notin") operator.entry.now)
        (λ rest. list_at rest and_then λ list. Some (Test.NotIn list.0, list.1))
        (Some (Test.Exists, bytes.entry.now)))) }
{
    if let Some(rest) = after(b"in", operator) {
        return match read_list(alloc, rest)? {
            Some((values, left)) => Ok(Some((Test::In(values), left))),
            None => Ok(None),
        };
    }
    if let Some(rest) = after(b"notin", operator) {
        return match read_list(alloc, rest)? {
            Some((values, left)) => Ok(Some((Test::NotIn(values), left))),
            None => Ok(None),
        };
    }
    Ok(Some((Test::Exists, bytes)))
}

// The test behind a key, and what is behind it.
fn read_test(alloc: Global, bytes: &[u8]) -> Result<Option<(Test, &[u8])>, OutOfMemory>
    ensures { IfOk result (λ found. option_map (λ parts. (parts.0, parts.1.now)) found
        ≡ test_at bytes.entry.now) }
{
    let operator = behind(Class::Space, bytes);
    if let Some(rest) = after(b"==", operator) {
        let (value, left) = read_value(alloc, rest)?;
        return Ok(Some((Test::Is(value), left)));
    }
    if let Some(rest) = after(b"=", operator) {
        let (value, left) = read_value(alloc, rest)?;
        return Ok(Some((Test::Is(value), left)));
    }
    if let Some(rest) = after(b"!=", operator) {
        let (value, left) = read_value(alloc, rest)?;
        return Ok(Some((Test::IsNot(value), left)));
    }
    read_list_test(alloc, operator, bytes)
}

// A requirement, and what is behind it.
fn read_requirement(
    alloc: Global,
    bytes: &[u8],
) -> Result<Option<(Requirement, &[u8])>, OutOfMemory>
    ensures { IfOk result (λ found. option_map (λ parts. (parts.0, parts.1.now)) found
        ≡ requirement_at bytes.entry.now) }
{
    if let Some(rest) = after(b"!", bytes) {
        let Some((key, left)) = read_key(alloc, behind(Class::Space, rest))? else {
            return Ok(None);
        };
        let test = Test::Missing;
        return Ok(Some((Requirement { key, test }, left)));
    }
    let Some((key, rest)) = read_key(alloc, bytes)? else {
        return Ok(None);
    };
    let Some((test, left)) = read_test(alloc, rest)? else {
        return Ok(None);
    };
    Ok(Some((Requirement { key, test }, left)))
}

// The requirements joined by commas.
fn read_joined(alloc: Global, bytes: &[u8]) -> Result<Option<Selector>, OutOfMemory>
    ensures { IfOk result (λ found. found ≡ selector_of bytes.now) }
{
    let mut selector = Selector::new(alloc);
    let mut rest = bytes;
    loop {
        let Some((requirement, left)) = read_requirement(alloc, rest)? else {
            return Ok(None);
        };
        selector.push(requirement)?;
        if left.is_empty() {
            return Ok(Some(selector));
        }
        let Some(next) = after(b",", behind(Class::Space, left)) else {
            return Ok(None);
        };
        rest = behind(Class::Space, next);
    }
}

/// Reads a label selector: requirements `KEY`, `!KEY`, `KEY=V`, `KEY==V`, `KEY!=V`, `KEY in (V,..)` and
/// `KEY notin (V,..)`, joined by commas, with spaces between tokens. A key is made of ASCII letters,
/// digits, `-`, `_`, `.` and `/`, and is neither `in` nor `notin`; a value has the same bytes without
/// `/`, and is empty only behind `=`, `==` and `!=`.
pub fn read_selector(alloc: Global, text: &str) -> Result<Selector, SelectorFault>
    ensures ok { IfOk result (λ selector. selector_of text.now ≡ Some selector) }
    ensures form { result ≡ Err SelectorFault.Form → selector_of text.now ≡ None }

    // The text spells these requirements and no others, or none at all.
    ensures spelled { IfOk result (λ selector. Spells selector text.now) }
    ensures only { IfOk result (λ selector. (other : List Requirement) → Spells other text.now
        → other ≡ selector) }
    ensures unspelled { result ≡ Err SelectorFault.Form → (other : List Requirement)
        → Spells other text.now → ⊥ }
{
    match read_joined(alloc, text.as_bytes())? {
        Some(selector) => Ok(selector),
        None => Err(SelectorFault::Form),
    }
}
