ghost use Rattle.std.specs.Prelude.{◌≡◌, Some, None, Err, IfOk, option_map, codes};
ghost use Rattle.base_types.specs.Texts.{◌>>=◌ as ◌and_then◌, texts_at};
ghost use Rattle.rbac_rules.specs.Forms.{rule_of, rules_in, role_of, namespace_or, account_of, subject_of};
ghost use Rattle.rbac_rules.specs.Forms.{subjects_in, home_of, is_cluster_kind, role_ref_of, binding_of};

use crate::binding::{Binding, Subject, Subjects};
use crate::role::{PolicyRule, PolicyRules};
use base_types::json::Tree;
use base_types::{OutOfMemory, Text, Texts};
use std::alloc::Global;
use thiserror::Error;

/// Why a tree is no Role, or no binding.
#[derive(Clone, Copy, Debug, PartialEq, Eq, Error)]
pub enum RbacFault {
    #[error("not in the form of a role or a binding")]
    Form,
    #[error("out of memory")]
    OutOfMemory,
}

impl From<OutOfMemory> for RbacFault {
    ghost use Rattle.rbac_rules.specs.declared.reading.RbacFault.TheVariants.{OutOfMemory as Refused};
    ghost use Rattle.std.specs.Prelude.{◌≡◌};

    ghost from_gives = { λ _ fault. fault ≡ Refused };

    fn from(_: OutOfMemory) -> RbacFault {
        RbacFault::OutOfMemory
    }
}

// What a rule grants, and the verbs by which.
#[derive(Drop)]
struct Scope {
    api_groups: Texts,
    resources: Texts,
    verbs: Texts,
}

// The single objects and paths that a rule grants.
#[derive(Drop)]
struct Singles {
    resource_names: Texts,
    non_resource_urls: Texts,
}

fn read_scope(alloc: Global, tree: &Tree) -> Result<Option<Scope>, OutOfMemory>
    ensures { IfOk result (λ found. found ≡ (texts_at (codes "apiGroups") tree.now
        and_then λ groups. texts_at (codes "resources") tree.now and_then λ resources. texts_at
        (codes "verbs") tree.now and_then λ verbs. Some
        (record { api_groups = groups; resources = resources; verbs = verbs }))) }
{
    let Some(api_groups) = tree.texts_at(alloc, "apiGroups")? else {
        return Ok(None);
    };
    let Some(resources) = tree.texts_at(alloc, "resources")? else {
        return Ok(None);
    };
    let Some(verbs) = tree.texts_at(alloc, "verbs")? else {
        return Ok(None);
    };
    Ok(Some(Scope {
        api_groups,
        resources,
        verbs,
    }))
}

fn read_singles(alloc: Global, tree: &Tree) -> Result<Option<Singles>, OutOfMemory>
    ensures { IfOk result (λ found. found ≡ (texts_at (codes "resourceNames") tree.now
        and_then λ names. texts_at (codes "nonResourceURLs") tree.now and_then λ urls. Some
        (record { resource_names = names; non_resource_urls = urls }))) }
{
    let Some(resource_names) = tree.texts_at(alloc, "resourceNames")? else {
        return Ok(None);
    };
    let Some(non_resource_urls) = tree.texts_at(alloc, "nonResourceURLs")? else {
        return Ok(None);
    };
    Ok(Some(Singles {
        resource_names,
        non_resource_urls,
    }))
}

fn read_rule(alloc: Global, tree: &Tree) -> Result<Option<PolicyRule>, OutOfMemory>
    ensures { IfOk result (λ found. found ≡ rule_of tree.now) }
{
    if tree.as_members().is_none() {
        return Ok(None);
    }
    let Some(scope) = read_scope(alloc, tree)? else {
        return Ok(None);
    };
    let Some(singles) = read_singles(alloc, tree)? else {
        return Ok(None);
    };
    Ok(Some(PolicyRule {
        api_groups: scope.api_groups,
        resources: scope.resources,
        verbs: scope.verbs,
        resource_names: singles.resource_names,
        non_resource_urls: singles.non_resource_urls,
    }))
}

fn read_rules(alloc: Global, trees: &[Tree]) -> Result<Option<PolicyRules>, OutOfMemory>
    ensures { IfOk result (λ found. found ≡ rules_in trees.now) }
{
    let mut rules = PolicyRules::new(alloc);
    for tree in trees {
        let Some(rule) = read_rule(alloc, tree)? else {
            return Ok(None);
        };
        rules.push(rule)?;
    }
    Ok(Some(rules))
}

/// Reads the rules of a Role or a ClusterRole. Rules that are missing or null are none; a list within a
/// rule may be missing, but not null. `aggregationRule` and unknown members are ignored.
pub fn read_role(alloc: Global, tree: &Tree) -> Result<PolicyRules, RbacFault>
    ensures rules { IfOk result (λ rules. role_of tree.now ≡ Some rules) }
    ensures form { result ≡ Err RbacFault.Form → role_of tree.now ≡ None }
{
    if tree.as_members().is_none() {
        return Err(RbacFault::Form);
    }
    let Some(trees) = tree.items_at("rules") else {
        return Err(RbacFault::Form);
    };
    match read_rules(alloc, trees)? {
        Some(rules) => Ok(rules),
        None => Err(RbacFault::Form),
    }
}

// The namespace of a service account: its own, or that of the binding where it names none.
fn namespace_of<'a>(member: Option<&'a Tree>, home: &'a str) -> Option<&'a str>
    ensures { option_map (λ text. text.now) result ≡ namespace_or home.entry.now
        (option_map (λ tree. tree.now) member.entry) }
{
    let Some(tree) = member else {
        return Some(home);
    };
    if tree.is_null() {
        return Some(home);
    }
    let namespace = tree.as_text()?.as_str();
    Some(if namespace.is_empty() {
        home
    } else {
        namespace
    })
}

fn read_account(
    alloc: Global,
    tree: &Tree,
    name: &Text,
    home: &str,
) -> Result<Option<Subject>, OutOfMemory>
    ensures { IfOk result (λ found. found ≡ account_of home.now tree.now name.now) }
{
    let Some(namespace) = namespace_of(tree.member("namespace"), home) else {
        return Ok(None);
    };
    Ok(Some(Subject::ServiceAccount {
        namespace: Text::from_str(alloc, namespace)?,
        name: name.clone()?,
    }))
}

fn read_subject(alloc: Global, tree: &Tree, home: &str) -> Result<Option<Subject>, OutOfMemory>
    ensures { IfOk result (λ found. found ≡ subject_of home.now tree.now) }
{
    let Some(kind) = tree.text_at("kind") else {
        return Ok(None);
    };
    let Some(name) = tree.text_at("name") else {
        return Ok(None);
    };
    match kind.as_str() {
        "User" => Ok(Some(Subject::User(name.clone()?))),
        "Group" => Ok(Some(Subject::Group(name.clone()?))),
        "ServiceAccount" => read_account(alloc, tree, name, home),
        _ => Ok(None),
    }
}

fn read_subjects(alloc: Global, trees: &[Tree], home: &str) -> Result<Option<Subjects>, OutOfMemory>
    ensures { IfOk result (λ found. found ≡ subjects_in home.now trees.now) }
{
    let mut subjects = Subjects::new(alloc);
    for tree in trees {
        let Some(subject) = read_subject(alloc, tree, home)? else {
            return Ok(None);
        };
        subjects.push(subject)?;
    }
    Ok(Some(subjects))
}

// Whether a kind of role is ClusterRole; none where it is no kind of role.
fn is_cluster_kind(kind: &str) -> Option<bool>
    ensures { result ≡ is_cluster_kind kind.now }
{
    match kind {
        "ClusterRole" => Some(true),
        "Role" => Some(false),
        _ => None,
    }
}

// Whether the role that a binding refers to is a ClusterRole, and its name.
fn role_ref(tree: &Tree) -> Option<(bool, &Text)>
    ensures { option_map (λ found. (found.0, found.1.now)) result ≡ role_ref_of tree.now }
{
    let role = tree.member("roleRef")?;
    let kind = role.text_at("kind")?;
    let name = role.text_at("name")?;
    Some((is_cluster_kind(kind.as_str())?, name))
}

// The namespace of a binding; empty where it has none.
fn home_of(tree: &Tree) -> &str
    ensures { result.now ≡ home_of tree.now }
{
    let home = tree
        .member("metadata")
        .and_then(|metadata| metadata.text_at("namespace"));
    match home {
        Some(namespace) => namespace.as_str(),
        None => "",
    }
}

/// Reads a RoleBinding or a ClusterRoleBinding, whichever it is: a Role is accepted in both. Subjects
/// that are missing or null are none. Unknown members are ignored.
pub fn read_binding(alloc: Global, tree: &Tree) -> Result<Binding, RbacFault>
    ensures binding { IfOk result (λ binding. binding_of tree.now ≡ Some binding) }
    ensures form { result ≡ Err RbacFault.Form → binding_of tree.now ≡ None }
{
    let Some((role_is_cluster, name)) = role_ref(tree) else {
        return Err(RbacFault::Form);
    };
    let Some(trees) = tree.items_at("subjects") else {
        return Err(RbacFault::Form);
    };
    let Some(subjects) = read_subjects(alloc, trees, home_of(tree))? else {
        return Err(RbacFault::Form);
    };
    let Ok(role) = name.clone() else {
        return Err(RbacFault::OutOfMemory);
    };
    Ok(Binding {
        role_is_cluster,
        role,
        subjects,
    })
}
