ghost use Rattle.std.specs.Prelude.{◌≡◌, ◌+◌, ◌&&◌, IfOk, IfErr, Some, option_map, min, codes, bytes_eq, ◌-◌, ◌^◌};
ghost use Rattle.base_types.specs.Parts.{member_of};
ghost use Rattle.base_types.specs.Texts.{◌>>=◌ as ◌and_then◌, texts_at};
ghost use Rattle.audit_policy.specs.Forms.{level_named, with_stage, no_stages, stages_with, stages_at};
ghost use Rattle.audit_policy.specs.Forms.{group_or_core, item_of, items_in, items_or_none, mixes_kinds, unmixed};
ghost use Rattle.audit_policy.specs.Forms.{rule_of, rules_from, heading, policy_of, IsRulesCause, IsCause};

use crate::policy::{
    AuditRule, AuditRules, GroupResources, GroupResourcesList, Policy, PolicyFault,
};
use base_types::json::{Tree, Trees};
use base_types::{Level, OutOfMemory, PolicyLevel, StageSet, Text, Texts};
use std::alloc::Global;

fn level_named(name: &str) -> Option<PolicyLevel>
    ensures { result ≡ level_named name.now }
{
    match name {
        "None" => Some(PolicyLevel::NoLevel),
        "Metadata" => Some(PolicyLevel::Set(Level::Metadata)),
        "Request" => Some(PolicyLevel::Set(Level::Request)),
        "RequestResponse" => Some(PolicyLevel::Set(Level::RequestResponse)),
        _ => None,
    }
}

// These stages, and the one of a name.
fn with_stage(name: &str, stages: StageSet) -> Option<StageSet>
    ensures { result ≡ with_stage name.now stages }
{
    let mut more = stages;
    match name {
        "RequestReceived" => more.received = true,
        "ResponseStarted" => more.started = true,
        "ResponseComplete" => more.complete = true,
        "Panic" => more.panic = true,
        _ => return None,
    }
    Some(more)
}

const NO_STAGES: StageSet = StageSet {
    received: false,
    started: false,
    complete: false,
    panic: false,
};

fn stages_in(trees: &[Tree]) -> Option<StageSet>
    ensures { result ≡ stages_with no_stages trees.now }
{
    let mut stages = NO_STAGES;
    for tree in trees {
        stages = with_stage(tree.as_text()?.as_str(), stages)?;
    }
    Some(stages)
}

// The stages that the member `omitStages` names.
fn stages_at(tree: &Tree) -> Option<StageSet>
    ensures { result ≡ stages_at tree.now }
{
    match tree.member("omitStages") {
        Some(value) => stages_in(value.as_items()?.all.as_slice()),
        None => Some(NO_STAGES),
    }
}

fn group_of(alloc: Global, member: Option<&Tree>) -> Result<Option<Text>, OutOfMemory>
    ensures { IfOk result (λ found. found ≡ group_or_core
        (option_map (λ tree. tree.now) member.entry)) }
{
    let Some(value) = member else {
        return Ok(Some(Text::new(alloc)));
    };
    match value.as_text() {
        Some(group) => Ok(Some(group.clone()?)),
        None => Ok(None),
    }
}

fn read_item(alloc: Global, tree: &Tree) -> Result<Option<GroupResources>, OutOfMemory>
    ensures { IfOk result (λ found. found ≡ item_of tree.now) }
{
    if tree.as_members().is_none() {
        return Ok(None);
    }
    let Some(group) = group_of(alloc, tree.member("group"))? else {
        return Ok(None);
    };
    let Some(resources) = tree.texts_at(alloc, "resources")? else {
        return Ok(None);
    };
    let Some(resource_names) = tree.texts_at(alloc, "resourceNames")? else {
        return Ok(None);
    };
    Ok(Some(GroupResources {
        group,
        resources,
        resource_names,
    }))
}

fn read_items(alloc: Global, trees: &[Tree]) -> Result<Option<GroupResourcesList>, OutOfMemory>
    ensures { IfOk result (λ found. found ≡ items_in trees.now) }
{
    let mut items = GroupResourcesList::new(alloc);
    for tree in trees {
        let Some(item) = read_item(alloc, tree)? else {
            return Ok(None);
        };
        items.push(item)?;
    }
    Ok(Some(items))
}

fn read_resources(
    alloc: Global,
    member: Option<&Tree>,
) -> Result<Option<GroupResourcesList>, OutOfMemory>
    ensures { IfOk result (λ found. found ≡ items_or_none
        (option_map (λ tree. tree.now) member.entry)) }
{
    let Some(value) = member else {
        return Ok(Some(GroupResourcesList::new(alloc)));
    };
    match value.as_items() {
        Some(items) => read_items(alloc, items.all.as_slice()),
        None => Ok(None),
    }
}

// Whether the rule has conditions on resource requests and on others.
fn mixes_kinds(rule: &AuditRule) -> bool
    ensures { result ≡ mixes_kinds rule.now }
{
    !rule.non_resource_urls.is_empty() && !(rule.resources.is_empty() && rule.namespaces.is_empty())
}

// Who asks and how, as a rule lists it.
#[derive(Drop)]
struct Callers {
    users: Texts,
    user_groups: Texts,
    verbs: Texts,
}

// What is asked for, as a rule lists it.
#[derive(Drop)]
struct Targets {
    namespaces: Texts,
    non_resource_urls: Texts,
    resources: GroupResourcesList,
}

fn read_callers(alloc: Global, tree: &Tree) -> Result<Option<Callers>, OutOfMemory>
    ensures { IfOk result (λ found. found ≡ (texts_at (codes "users") tree.now and_then λ users.
        texts_at (codes "userGroups") tree.now and_then λ groups. texts_at (codes "verbs") tree.now
        and_then λ verbs. Some (record { users = users; user_groups = groups; verbs = verbs }))) }
{
    let Some(users) = tree.texts_at(alloc, "users")? else {
        return Ok(None);
    };
    let Some(user_groups) = tree.texts_at(alloc, "userGroups")? else {
        return Ok(None);
    };
    let Some(verbs) = tree.texts_at(alloc, "verbs")? else {
        return Ok(None);
    };
    Ok(Some(Callers {
        users,
        user_groups,
        verbs,
    }))
}

fn read_targets(alloc: Global, tree: &Tree) -> Result<Option<Targets>, OutOfMemory>
    ensures { IfOk result (λ found. found ≡ (texts_at (codes "namespaces") tree.now
        and_then λ namespaces. texts_at (codes "nonResourceURLs") tree.now and_then λ urls.
        items_or_none (member_of (codes "resources") tree.now) and_then λ resources. Some
        (record { namespaces = namespaces; non_resource_urls = urls; resources = resources }))) }
{
    let Some(namespaces) = tree.texts_at(alloc, "namespaces")? else {
        return Ok(None);
    };
    let Some(non_resource_urls) = tree.texts_at(alloc, "nonResourceURLs")? else {
        return Ok(None);
    };
    let Some(resources) = read_resources(alloc, tree.member("resources"))? else {
        return Ok(None);
    };
    Ok(Some(Targets {
        namespaces,
        non_resource_urls,
        resources,
    }))
}

// The rule, unless it has conditions of both kinds.
fn unmixed(rule: AuditRule) -> Option<AuditRule>
    ensures { result ≡ unmixed rule }
{
    if mixes_kinds(&rule) { None } else { Some(rule) }
}

fn read_rule(alloc: Global, tree: &Tree) -> Result<Option<AuditRule>, OutOfMemory>
    ensures { IfOk result (λ found. found ≡ rule_of tree.now) }
{
    let Some(name) = tree.text_at("level") else {
        return Ok(None);
    };
    let Some(level) = level_named(name.as_str()) else {
        return Ok(None);
    };
    let Some(callers) = read_callers(alloc, tree)? else {
        return Ok(None);
    };
    let Some(targets) = read_targets(alloc, tree)? else {
        return Ok(None);
    };
    let Some(omitted) = stages_at(tree) else {
        return Ok(None);
    };
    Ok(unmixed(AuditRule {
        level,
        users: callers.users,
        user_groups: callers.user_groups,
        verbs: callers.verbs,
        namespaces: targets.namespaces,
        non_resource_urls: targets.non_resource_urls,
        resources: targets.resources,
        omitted,
    }))
}

// Whether an object of this kind and version is a policy.
fn is_policy(kind: &Text, version: &Text) -> bool
    ensures { result ≡ (bytes_eq kind.now (codes "Policy") && bytes_eq version.now
        (codes "audit.k8s.io/v1")) }
{
    kind.as_str() == "Policy" && version.as_str() == "audit.k8s.io/v1"
}

// The omitted stages and the rules' trees of an object that says that it is a policy.
fn heading(tree: &Tree) -> Option<(StageSet, &Trees)>
    ensures { option_map (λ parts. (parts.0, parts.1.now)) result ≡ heading tree.now }
{
    let kind = tree.text_at("kind")?;
    let version = tree.text_at("apiVersion")?;
    let rules = tree.member("rules")?.as_items()?;
    let omitted = stages_at(tree)?;
    if is_policy(kind, version) {
        Some((omitted, rules))
    } else {
        None
    }
}

// A rule's number, which counts from 1.
fn number_of(index: usize) -> u32
    ensures { result ≡ min (index + 1) (2 ^ 32 - 1) }
{
    u32::try_from(index).map_or(u32::MAX, |index| index.saturating_add(1))
}

fn read_rules(alloc: Global, trees: &[Tree]) -> Result<AuditRules, PolicyFault>
    ensures rules { IfOk result (λ rules. rules_from 1 trees.now ≡ Ok rules) }
    ensures cause { IfErr result (IsRulesCause trees.now) }
{
    let mut rules = AuditRules::new(alloc);
    for (i, tree) in trees.iter().enumerate() {
        let Some(rule) = read_rule(alloc, tree)? else {
            return Err(PolicyFault::Form { rule: number_of(i) });
        };
        rules.push(rule)?;
    }
    Ok(rules)
}

/// Reads a policy (Kubernetes `audit.k8s.io/v1`, Policy). Unknown members are ignored; a list that is
/// missing is empty, and one that is null is refused.
pub fn read_policy(alloc: Global, tree: &Tree) -> Result<Policy, PolicyFault>
    ensures policy { IfOk result (λ policy. policy_of tree.now ≡ Ok policy) }
    ensures cause { IfErr result (IsCause tree.now) }
{
    let Some((omitted, trees)) = heading(tree) else {
        return Err(PolicyFault::Form { rule: 0 });
    };
    let rules = read_rules(alloc, trees.all.as_slice())?;
    Ok(Policy { omitted, rules })
}
