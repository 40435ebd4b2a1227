ghost use Rattle.std.specs.Prelude.{◌≡◌, ◌≢◌, List, ℕ, IfOk, IfSome, IfNone, IsTrue, ◌↔◌};
ghost use Rattle.base_types.specs.declared.kubernetes.key.ObjectKey.{ObjectKey};
ghost use Rattle.base_types.specs.Keys.{key_spelling, same_key, AreWritten, HasNoSlash, IsCut, IsJoined, IsNamed, SpellsAlone};
ghost use Rattle.base_types.specs.Covers.{TakesName, Covers, NamesExactly};

use crate::foundation::{OutOfMemory, Text, append_escaped, unescape};
use std::alloc::Global;

/// The identity of an object: its API group, resource, namespace and name, compared in this order by
/// bytes. `namespace` is empty for a cluster-wide resource, `group` for the core group.
#[derive(Clone, Drop, PartialEq, Eq, PartialOrd, Ord, Hash)]
pub struct ObjectKey {
    pub group: Text,
    pub resource: Text,
    pub namespace: Text,
    pub name: Text,
}

/// Whether two keys are of one object.
pub fn same_key(key: &ObjectKey, other: &ObjectKey) -> bool
    ensures { result ≡ same_key key.now other.now }
{
    *key == *other
}

/// The text `GROUP/RESOURCE/NAMESPACE/NAME`, its parts as `escape` writes them.
pub fn key_text(alloc: Global, key: &ObjectKey) -> Result<Text, OutOfMemory>
    ensures spelling { IfOk result (λ text. text ≡ key_spelling key.now) }
    ensures alone { IfOk result (λ text. SpellsAlone text key.now) }
{
    let mut text = String::new(alloc);
    append_escaped(&mut text, &key.group)?;
    text.push('/')?;
    append_escaped(&mut text, &key.resource)?;
    text.push('/')?;
    append_escaped(&mut text, &key.namespace)?;
    text.push('/')?;
    append_escaped(&mut text, &key.name)?;
    Ok(Text::from_string(text))
}

// The four words between a key's slashes.
#[derive(Drop)]
struct KeyWords<'a> {
    group: &'a str,
    resource: &'a str,
    namespace: &'a str,
    name: &'a str,
}

// The part before the first slash, and the rest behind it.
fn cut_at_slash(word: &str) -> Option<(&str, &str)>
    ensures some { IfSome result (λ parts. IsCut word.now parts.0.now parts.1.now) }
    ensures none { IfNone result (HasNoSlash word.now) }
{
    word.split_once('/')
}

fn split_key(word: &str) -> Option<KeyWords<'_>>
    ensures some { IfSome result (λ words. IsJoined word.now words.group.now words.resource.now
        words.namespace.now words.name.now) }
    ensures none { IfNone result ((key : ObjectKey) → word.now ≢ key_spelling key) }
{
    let (group, rest) = cut_at_slash(word)?;
    let (resource, rest) = cut_at_slash(rest)?;
    let (namespace, name) = cut_at_slash(rest)?;
    Some(KeyWords {
        group,
        resource,
        namespace,
        name,
    })
}

// The texts that two words write, if both write one.
fn unescape_both(
    alloc: Global,
    first: &str,
    second: &str,
) -> Result<Option<(Text, Text)>, OutOfMemory>
    ensures some { IfOk result (λ found. IfSome found (λ texts.
        AreWritten first.now second.now texts.0 texts.1)) }
    ensures none { IfOk result (λ found. IfNone found ((one two : List ℕ) →
        ¬ (AreWritten first.now second.now one two))) }
{
    let Some(one) = unescape(alloc, first)? else {
        return Ok(None);
    };
    let Some(two) = unescape(alloc, second)? else {
        return Ok(None);
    };
    Ok(Some((one, two)))
}

/// Reads the text that `key_text` gives of a key with a resource and a name.
pub fn read_key(alloc: Global, word: &str) -> Result<Option<ObjectKey>, OutOfMemory>
    ensures some { IfOk result (λ found. IfSome found (λ key. word.now ≡ key_spelling key)) }
    ensures named { IfOk result (λ found. IfSome found IsNamed) }
    ensures alone { IfOk result (λ found. IfSome found (SpellsAlone word.now)) }
    ensures none { IfOk result (λ found.
        IfNone found ((key : ObjectKey) → IsNamed key → word.now ≢ key_spelling key)) }
{
    let Some(words) = split_key(word) else {
        return Ok(None);
    };
    if words.resource.is_empty() || words.name.is_empty() {
        return Ok(None);
    }
    let Some((group, resource)) = unescape_both(alloc, words.group, words.resource)? else {
        return Ok(None);
    };
    let Some((namespace, name)) = unescape_both(alloc, words.namespace, words.name)? else {
        return Ok(None);
    };
    Ok(Some(ObjectKey {
        group,
        resource,
        namespace,
        name,
    }))
}

/// The objects whose unrecorded writes an event may stand for.
#[derive(Clone, Drop, PartialEq, Eq)]
pub struct Cover {
    pub group: Text,
    pub resource: Text,
    /// None for any namespace, the empty one among them.
    pub namespace: Option<Text>,
    pub name: CoverName,
    /// Whether the event is a create.
    pub creates: bool,
}

/// The names that a cover takes.
#[derive(Clone, Drop, PartialEq, Eq)]
pub enum CoverName {
    Exact(Text),
    /// Each name that begins so (Kubernetes API concepts, "Generated names").
    Prefix(Text),
    Any,
}

impl CoverName {
    fn takes(&self, name: &Text) -> bool
        ensures { IsTrue result ↔ TakesName self.now name.now }
    {
        match self {
            CoverName::Exact(given) => name == given,
            CoverName::Prefix(front) => name.as_str().starts_with(front.as_str()),
            CoverName::Any => true,
        }
    }
}

/// Whether an object of this key is among those that the cover stands for.
pub fn covers(cover: &Cover, key: &ObjectKey) -> bool
    ensures { IsTrue result ↔ Covers cover.now key.now }
{
    let in_namespace = match &cover.namespace {
        Some(namespace) => key.namespace == *namespace,
        None => true,
    };
    key.group == cover.group
        && key.resource == cover.resource
        && in_namespace
        && cover.name.takes(&key.name)
}

/// The one key that the cover names, where its name is exact and its namespace isn't any.
pub fn exact_key(alloc: Global, cover: &Cover) -> Result<Option<ObjectKey>, OutOfMemory>
    ensures some { IfOk result (λ found. IfSome found (NamesExactly cover.now)) }
    ensures none { IfOk result (λ found.
        IfNone found ((key : ObjectKey) → ¬ (NamesExactly cover.now key))) }
{
    let (Some(namespace), CoverName::Exact(name)) = (&cover.namespace, &cover.name) else {
        return Ok(None);
    };
    Ok(Some(ObjectKey {
        group: cover.group.clone()?,
        resource: cover.resource.clone()?,
        namespace: namespace.clone()?,
        name: name.clone()?,
    }))
}
