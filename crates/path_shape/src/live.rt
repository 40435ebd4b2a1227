ghost use Rattle.std.specs.Prelude.{◌≡◌, ◌-◌, ◌^◌, [], ◌∷◌, Bool, length, min, option_map, unwrap_or};
ghost use Rattle.path_shape.specs.Beginning.{read_as};
ghost use Rattle.path_shape.specs.Passing.{cut, behind, is_past, any_past, ends_at, entry_class, built_in_class};
ghost use Rattle.path_shape.specs.Passing.{released_class, is_root, is_metadata, entries_past, past_of};
ghost use Rattle.path_shape.specs.Patterns.{covers};
ghost use Rattle.path_shape.specs.Walk.{is_any, ending};

use crate::shape::{FieldClass, ShapeEntry};
use base_types::Text;
use std::marker::Model;

/// The names of a path from the last to the first: a list that lies on the stack, and isn't longer than the trees
/// are deep.
#[cycle(way)]
#[derive(Drop)]
pub struct Way<'a> {
    pub last: Option<Step<'a>>,
}

/// The last of these names, and those above.
#[cycle(way)]
#[derive(Drop)]
pub struct Step<'a> {
    pub name: &'a str,
    pub above: &'a Way<'a>,
}

/// The patterns that go past a path: those of a setup, and those that are built in.
#[derive(Clone, Copy)]
pub struct Live<'a> {
    /// Nothing is asked, as by a delete with finalizers: all stays but what is owned and what such a delete changes.
    pub unasked: bool,
    pub entries: &'a [ShapeEntry],
    pub way: &'a Way<'a>,
}

impl<'a> Model for Step<'a> {
    ghost use Rattle.std.specs.Prelude.{ℕ, ◌*◌, List, ◌∷◌, length};
    ghost use Rattle.std.specs.Coded.{coded_list};
    ghost use Rattle.base_types.specs.Code.{coded_bytes};

    ghost Value = { List (List ℕ) };

    ghost coded = { coded_list coded_bytes };

    ghost view = { λ s. s.name.now ∷ s.above.now };

    ghost size = { λ s. 2 * length s };
}

impl<'a> Model for Way<'a> {
    ghost use Rattle.std.specs.Prelude.{ℕ, ◌+◌, ◌*◌, List, length};
    ghost use Rattle.std.specs.Coded.{coded_list};
    ghost use Rattle.base_types.specs.Code.{coded_bytes};
    ghost use Rattle.path_shape.specs.Names.{none_or};

    ghost Value = { List (List ℕ) };

    ghost coded = { coded_list coded_bytes };

    ghost view = { λ w. none_or w.last };

    ghost size = { λ w. 2 * length w + 1 };
}

impl<'a> Way<'a> {
    pub fn root() -> Way<'a>
        ensures { result ≡ [] }
    {
        Way { last: None }
    }

    pub fn below(name: &'a str, above: &'a Way<'a>) -> Way<'a>
        ensures { result ≡ name.now ∷ above.now }
    {
        Way {
            last: Some(Step {
                name,
                above: &*above,
            }),
        }
    }
}

fn is_root(way: &Way<'_>) -> bool
    ensures { result ≡ is_root way.now }
{
    match &way.last {
        None => true,
        Some(step) => {
            let _above = step.above;
            false
        }
    }
}

fn is_metadata(way: &Way<'_>) -> bool
    ensures { result ≡ is_metadata way.now }
{
    match &way.last {
        None => false,
        Some(step) => {
            if !is_root(step.above) {
                return false;
            }
            step.name == "metadata"
        }
    }
}

fn covers(token: &str, name: &str) -> bool
    ensures { result ≡ covers token.now name.now }
{
    token == "*" || token == name
}

fn cut<'e>(tokens: &'e [Text], name: &str) -> Option<&'e [Text]>
    ensures { option_map (λ ts. ts.now) result ≡ cut name.now tokens.entry.now }
{
    match tokens {
        [] => None,
        [token, rest @ ..] => {
            if covers(token.as_str(), name) {
                Some(rest)
            } else {
                None
            }
        }
    }
}

// The tokens of a pattern behind a path, where it matches the path.
fn behind<'e>(tokens: &'e [Text], way: &Way<'_>) -> Option<&'e [Text]>
    ensures { option_map (λ ts. ts.now) result ≡ behind way.now tokens.entry.now }
{
    match &way.last {
        None => Some(tokens),
        Some(step) => {
            let name = step.name;
            match behind(tokens, step.above) {
                None => None,
                Some(rest) => cut(rest, name),
            }
        }
    }
}

fn is_past(tokens: Option<&[Text]>) -> bool
    ensures { result ≡ is_past (option_map (λ ts. ts.now) tokens.entry) }
{
    match tokens {
        None => false,
        Some(tokens) => match tokens {
            [] => false,
            [_, ..] => true,
        },
    }
}

fn ends_at(name: &str, tokens: Option<&[Text]>) -> bool
    ensures { result ≡ ends_at name.now (option_map (λ ts. ts.now) tokens.entry) }
{
    match tokens {
        None => false,
        Some(tokens) => match tokens {
            [token] => covers(token.as_str(), name),
            _ => false,
        },
    }
}

fn any_past(entries: &[ShapeEntry], way: &Way<'_>) -> bool
    ensures { result ≡ any_past way.now entries.now }
{
    for entry in entries {
        if is_past(behind(entry.path.as_slice(), way)) {
            return true;
        }
    }
    false
}

// The entries from the first on that goes past a path.
fn from_first_past<'e>(entries: &'e [ShapeEntry], way: &Way<'_>) -> &'e [ShapeEntry]
    ensures { (nothing : Bool) → entries_past way.now nothing result.now
        ≡ entries_past way.now nothing entries.entry.now }
{
    let mut rest = entries;
    while let [first, others @ ..] = rest {
        if is_past(behind(first.path.as_slice(), way)) {
            return rest;
        }
        rest = others;
    }
    rest
}

// The entries up to the last that goes past a path.
fn up_to_last_past<'e>(entries: &'e [ShapeEntry], way: &Way<'_>) -> &'e [ShapeEntry]
    ensures { (nothing : Bool) → entries_past way.now nothing result.now
        ≡ entries_past way.now nothing entries.entry.now }
{
    let mut end = entries.len();
    'last: while end > 0 {
        if is_past(behind(entries[end - 1].path.as_slice(), way)) {
            break;
        }
        end -= 1;
    }
    &entries[..end]
}

/// Entries that go past a path, and no more than lie between the first and the last of them.
pub fn going_past<'e>(entries: &'e [ShapeEntry], way: &Way<'_>) -> &'e [ShapeEntry]
    ensures { (nothing : Bool) → entries_past way.now nothing result.now
        ≡ entries_past way.now nothing entries.entry.now }
{
    up_to_last_past(from_first_past(entries, way), way)
}

/// How a class is read where nothing is asked, and else.
pub fn read_as(unasked: bool, class: FieldClass) -> FieldClass
    ensures { result ≡ read_as unasked class }
{
    match class {
        FieldClass::Owned => FieldClass::Owned,
        FieldClass::Kept => FieldClass::Kept,
        FieldClass::Asked => {
            if unasked {
                FieldClass::Kept
            } else {
                FieldClass::Asked
            }
        }
        FieldClass::Defaulted => {
            if unasked {
                FieldClass::Kept
            } else {
                FieldClass::Defaulted
            }
        }
    }
}

// How many names a path has. The number stops at 2^64 - 1.
fn depth_of(way: &Way<'_>) -> usize
    ensures { result ≡ min (length way.now) (2 ^ 64 - 1) }
{
    match &way.last {
        None => 0,
        Some(step) => depth_of(step.above).saturating_add(1),
    }
}

// Whether a pattern ends under a name of a path of this depth. Most have another length, which is asked first.
fn ends_under(tokens: &[Text], way: &Way<'_>, depth: usize, name: &str) -> bool
    requires { depth ≡ min (length way.now) (2 ^ 64 - 1) }
    ensures { result ≡ ends_at name.now (behind way.now tokens.now) }
{
    if tokens.len().saturating_sub(1) != depth {
        return false;
    }
    ends_at(name, behind(tokens, way))
}

// The class of the first entry that ends under a name.
fn entry_class(
    entries: &[ShapeEntry],
    way: &Way<'_>,
    name: &str,
    unasked: bool,
) -> Option<FieldClass>
    ensures { result ≡ entry_class way.now name.now unasked entries.now }
{
    let depth = depth_of(way);
    for entry in entries {
        if ends_under(entry.path.as_slice(), way, depth, name) {
            return Some(read_as(unasked, entry.class));
        }
    }
    None
}

// The class of a field of the metadata that the API server sets (Kubernetes API conventions, "Metadata").
fn built_in_class(unasked: bool, name: &str) -> Option<FieldClass>
    ensures { result ≡ built_in_class unasked name.now }
{
    match name {
        "name" => Some(read_as(unasked, FieldClass::Defaulted)),
        "namespace" => Some(read_as(unasked, FieldClass::Defaulted)),
        "resourceVersion" => Some(FieldClass::Owned),
        "generation" => Some(FieldClass::Owned),
        "selfLink" => Some(FieldClass::Owned),
        "uid" => Some(FieldClass::Kept),
        "creationTimestamp" => Some(FieldClass::Kept),
        "deletionTimestamp" => Some(FieldClass::Kept),
        "deletionGracePeriodSeconds" => Some(FieldClass::Kept),
        _ => None,
    }
}

// The class of a field of the metadata that a delete changes (Kubernetes "Finalizers").
fn released_class(unasked: bool, name: &str) -> Option<FieldClass>
    ensures { result ≡ released_class unasked name.now }
{
    if !unasked {
        return None;
    }
    match name {
        "deletionTimestamp" => Some(FieldClass::Owned),
        "deletionGracePeriodSeconds" => Some(FieldClass::Owned),
        "finalizers" => Some(FieldClass::Owned),
        "generation" => Some(FieldClass::Owned),
        _ => None,
    }
}

impl<'a> Live<'a> {
    /// Whether there are any.
    pub fn is_any(self) -> bool
        ensures { result ≡ is_any (past_of self.entry) }
    {
        if is_root(self.way) {
            return true;
        }
        if is_metadata(self.way) {
            return true;
        }
        any_past(self.entries, self.way)
    }

    /// The class of what stands under a name: that of the first pattern that ends there, or else the given one.
    pub fn class_under(self, name: &str, class: FieldClass) -> FieldClass
        ensures { result ≡ unwrap_or (ending name.now (past_of self.entry)) class }
    {
        if !is_metadata(self.way) {
            return entry_class(self.entries, self.way, name, self.unasked).unwrap_or(class);
        }
        match released_class(self.unasked, name) {
            Some(found) => found,
            None => match entry_class(self.entries, self.way, name, self.unasked) {
                Some(found) => found,
                None => built_in_class(self.unasked, name).unwrap_or(class),
            },
        }
    }
}
