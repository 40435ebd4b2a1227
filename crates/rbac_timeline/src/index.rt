ghost use Rattle.std.specs.Prelude.{◌≡◌, ℕ, ◌∷◌, ◌++◌, [], List, Some, None, IfOk, OnOk, map};
ghost use Rattle.std.specs.BTreeMap.{Updates, get};
ghost use Rattle.base_types.specs.declared.kubernetes.key.ObjectKey.{ObjectKey};
ghost use Rattle.clouds.specs.Items.{AddsAt, items_at};
ghost use Rattle.clouds.specs.Kept.{text_order};
ghost use Rattle.rbac_timeline.specs.Index.{AreRising};
ghost use Rattle.rbac_timeline.specs.Indexed.{AddsAccount, ByText as Names, HasOneMore, IsIndexed, Mention};
ghost use Rattle.rbac_timeline.specs.Indexed.{account_keys, account_user, keys_of, mention_of, mentions_of};

use crate::named::named_subjects;
use crate::version::RbacVersion;
use base_types::{ObjectKey, OutOfMemory, Text};
use rbac_rules::Subject;
use std::alloc::Global;
use std::collections::BTreeMap;
use std::marker::Model;

/// Keys in order, each once.
#[derive(Drop)]
pub struct Keys {
    keys: Vec<ObjectKey>,
}

impl Model for Keys {
    ghost use Rattle.std.specs.Prelude.{List};
    ghost use Rattle.base_types.specs.declared.kubernetes.key.ObjectKey.{ObjectKey};

    ghost Value = { List ObjectKey };

    ghost use Rattle.rbac_timeline.specs.Index.{AreRising};

    ghost view = { λ k. k.keys.items };

    ghost invariant = { λ k. AreRising k.keys.items };
}

impl Keys {
    /// No keys.
    pub fn new(alloc: Global) -> Keys
        ensures { result ≡ [] }
    {
        Keys {
            keys: Vec::new(alloc),
        }
    }

    /// Puts a key in its place, unless it is there.
    pub fn add(&mut self, key: &ObjectKey) -> Result<(), OutOfMemory>
        ensures { OnOk result (HasOneMore self.old self.new key.now) }
    {
        match self.keys.binary_search(key) {
            Ok(_) => return Ok(()),
            Err(place) => {
                let copy = key.clone()?;
                self.keys.insert(place, copy)?;
            }
        }
        Ok(())
    }

    pub fn as_slice(&self) -> &[ObjectKey]
        ensures keys { result.now ≡ self.now }
        ensures rising { AreRising self.now }
    {
        self.keys.as_slice()
    }
}

/// Keys under texts.
pub type ByText = BTreeMap<Text, Keys>;

// The first key.
fn one_key(alloc: Global, key: &ObjectKey) -> Result<Keys, OutOfMemory>
    ensures { IfOk result (λ keys. HasOneMore [] keys key.now) }
{
    let mut keys = Keys::new(alloc);
    keys.add(key)?;
    Ok(keys)
}

// The first key under a text.
fn begin_under(
    alloc: Global,
    index: &mut ByText,
    text: &Text,
    key: &ObjectKey,
) -> Result<(), OutOfMemory>
    ensures { OnOk result ((keys : List ObjectKey) × Updates text_order index.old index.new text.now
        (Some keys) × HasOneMore [] keys key.now) }
{
    let keys = one_key(alloc, key)?;
    let Ok(copy) = text.clone() else {
        drop(keys);
        return Err(OutOfMemory);
    };
    drop(index.insert(copy, keys)?);
    Ok(())
}

/// Puts a key under a text, unless it is there.
pub fn add_under(
    alloc: Global,
    index: &mut ByText,
    text: &Text,
    key: &ObjectKey,
) -> Result<(), OutOfMemory>
    ensures { OnOk result (AddsAt text_order index.old index.new text.now key.now) }
{
    match index.get_mut(text) {
        Some(keys) => {
            keys.add(key)?;
            return Ok(());
        }
        None => begin_under(alloc, index, text, key)?,
    }
    Ok(())
}

/// The keys under a text.
pub fn found<'a>(index: &'a ByText, text: &Text) -> &'a [ObjectKey]
    ensures keys { result.now ≡ items_at text_order index.now text.now }
    ensures rising { AreRising result.now }
{
    match index.get(text) {
        Some(keys) => keys.as_slice(),
        None => &[],
    }
}

type Accounts = BTreeMap<Text, ByText>;

// The first name of a namespace.
fn one_name(alloc: Global, name: &Text, key: &ObjectKey) -> Result<ByText, OutOfMemory>
    ensures { IfOk result (λ names. (empty : Names)
        × ((n : List ℕ) → items_at text_order empty n ≡ [])
        × AddsAt text_order empty names name.now key.now) }
{
    let mut names = BTreeMap::new(alloc);
    add_under(alloc, &mut names, name, key)?;
    Ok(names)
}

// The first account of a namespace.
fn begin_account(
    alloc: Global,
    accounts: &mut Accounts,
    namespace: &Text,
    name: &Text,
    key: &ObjectKey,
) -> Result<(), OutOfMemory>
    ensures { OnOk result (get text_order accounts.old namespace.now ≡ None
        → AddsAccount accounts.old accounts.new namespace.now name.now key.now) }
{
    let names = one_name(alloc, name, key)?;
    let Ok(copy) = namespace.clone() else {
        drop(names);
        return Err(OutOfMemory);
    };
    drop(accounts.insert(copy, names)?);
    Ok(())
}

fn add_account(
    alloc: Global,
    accounts: &mut Accounts,
    namespace: &Text,
    name: &Text,
    key: &ObjectKey,
) -> Result<(), OutOfMemory>
    ensures { OnOk result (AddsAccount accounts.old accounts.new namespace.now name.now key.now) }
{
    match accounts.get_mut(namespace) {
        Some(names) => {
            add_under(alloc, names, name, key)?;
            return Ok(());
        }
        None => begin_account(alloc, accounts, namespace, name, key)?,
    }
    Ok(())
}

fn account_found<'a>(accounts: &'a Accounts, namespace: &Text, name: &Text) -> &'a [ObjectKey]
    ensures keys { result.now ≡ account_keys accounts.now namespace.now name.now }
    ensures rising { AreRising result.now }
{
    match accounts.get(namespace) {
        Some(names) => found(names, name),
        None => &[],
    }
}

/// The user that a service account is.
pub fn account_user(alloc: Global, namespace: &Text, name: &Text) -> Result<Text, OutOfMemory>
    ensures { IfOk result (λ user. user ≡ account_user namespace.now name.now) }
{
    let user = format!(in alloc;
        "system:serviceaccount:{}:{}",
        namespace.as_str(),
        name.as_str()
    )?;
    Ok(Text::from_string(user))
}

/// The bindings by the subjects that their versions name.
pub struct Index {
    users: ByText,
    groups: ByText,
    accounts: Accounts,
}

// Written out, so that a function that lets an index go makes one call for it.
impl Drop for Index {
    fn drop(self) {
        let Index {
            users: _,
            groups: _,
            accounts: _,
        } = self;
    }
}

impl Index {
    fn new(alloc: Global) -> Index
        ensures { IsIndexed result [] }
    {
        Index {
            users: BTreeMap::new(alloc),
            groups: BTreeMap::new(alloc),
            accounts: BTreeMap::new(alloc),
        }
    }

    fn add(&mut self, alloc: Global, subject: &Subject, key: &ObjectKey) -> Result<(), OutOfMemory>
        ensures { OnOk result ((mentions : List Mention) → IsIndexed self.old mentions
            → IsIndexed self.new (mentions ++ mention_of key.now subject.now ∷ [])) }
    {
        match subject {
            Subject::User(name) => {
                add_under(alloc, &mut self.users, name, key)?;
                return Ok(());
            }
            Subject::Group(name) => {
                add_under(alloc, &mut self.groups, name, key)?;
                return Ok(());
            }
            Subject::ServiceAccount { namespace, name } => {
                add_account(alloc, &mut self.accounts, namespace, name, key)?;
            }
        }
        Ok(())
    }

    fn add_each(
        &mut self,
        alloc: Global,
        subjects: &[Subject],
        key: &ObjectKey,
    ) -> Result<(), OutOfMemory>
        ensures { OnOk result ((mentions : List Mention) → IsIndexed self.old mentions
            → IsIndexed self.new (mentions ++ map (mention_of key.now) subjects.now)) }
    {
        for subject in subjects {
            self.add(alloc, subject, key)?;
        }
        Ok(())
    }

    /// Finds the bindings of these versions.
    pub fn of(alloc: Global, versions: &[RbacVersion]) -> Result<Index, OutOfMemory>
        ensures { IfOk result (λ index. IsIndexed index (mentions_of versions.now)) }
    {
        let mut index = Index::new(alloc);
        for version in versions {
            let subjects = named_subjects(&version.key, &version.content);
            index.add_each(alloc, subjects, &version.key)?;
        }
        Ok(index)
    }

    /// By a subject.
    pub fn by_subject(&self, subject: &Subject) -> &[ObjectKey]
        ensures keys { result.now ≡ keys_of self.now subject.now }
        ensures rising { AreRising result.now }
    {
        match subject {
            Subject::User(name) => found(&self.users, name),
            Subject::Group(name) => found(&self.groups, name),
            Subject::ServiceAccount { namespace, name } => {
                account_found(&self.accounts, namespace, name)
            }
        }
    }
}
