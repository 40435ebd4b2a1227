ghost use Rattle.std.specs.Prelude.{◌≡◌, ◌≤◌, ◌^◌, ℕ, Ok, Err, IfOk, IfErr, IsSome, length, map, is_some, codes};
ghost use Rattle.std.specs.List.{list_all};
ghost use Rattle.base_types.specs.Parts.{member_of};
ghost use Rattle.setup_file.specs.declared.fault.SetupRule.{SetupRule};
ghost use Rattle.setup_file.specs.declared.fault.SetupFault.TheVariants.{Rule};
ghost use Rattle.base_types.specs.Meaning.{Meaning};
ghost use Rattle.base_types.specs.Values.{InRange};
ghost use Rattle.setup_file.specs.declared.fault.SetupRule.TheVariants.{S1};
ghost use Rattle.setup_file.specs.Forms.{is_form};
ghost use Rattle.setup_file.specs.Reading.{whole_at, is_version, known, known_2, has_known, has_all, is_setup_form};
ghost use Rattle.setup_file.specs.Parts.{rest_at};
ghost use Rattle.setup_file.specs.Reading.{is_known_version, policy_at, setup_with, setup_of, IsTreeOf, ReadsAs};
ghost use Rattle.setup_file.specs.Sound.{IsSound};
ghost use Rattle.setup_file.specs.Steps.{IsCause};

use crate::authorization::{Authorization, is_authorized, read_authorization};
use crate::checkpoints::read_checkpoints;
use crate::clocks::read_clocks;
use crate::fault::{SetupFault, SetupRule};
use crate::form::is_form;
use crate::objects::has_text_at;
use crate::resources::read_resources;
use crate::setup::{Checkpoints, Setup, SnapshotObject};
use crate::snapshot::read_snapshot;
use crate::tracked_list::TrackedList;
use audit_policy::{Policy, PolicyFault, read_policy};
use base_types::Revision;
use base_types::json::TreeFault;
use hash_seed::Seed;
use packed_tree::{Packed, PackedRef, pack};
use serde_json::Value;
use std::alloc::Global;

// Whether the object has a member of each of these names.
fn has_each(names: &[&str], value: &PackedRef<'_>) -> bool
    ensures { result ≡ list_all (λ name. is_some (member_of name.now value.now)) names.now }
{
    for name in names {
        if value.member(*name).is_none() {
            return false;
        }
    }
    true
}

fn has_all(names: &[&str], value: &PackedRef<'_>) -> bool
    ensures { result ≡ has_all (map (λ name. name.now) names.now) value.now }
{
    has_each(&*names, value)
}

const REQUIRED: [&str; 5] = ["kind", "start", "policy", "resources", "snapshot"];

const KNOWN: [&str; 12] = [
    "kind",
    "start",
    "policy",
    "resources",
    "snapshot",
    "version",
    "until",
    "slackNanos",
    "lagNanos",
    "authorize",
    "bypassGroups",
    "skipGroups",
];

// `checkpoints` came with version 2.
const KNOWN_2: [&str; 13] = [
    "kind",
    "start",
    "policy",
    "resources",
    "snapshot",
    "version",
    "until",
    "slackNanos",
    "lagNanos",
    "authorize",
    "bypassGroups",
    "skipGroups",
    "checkpoints",
];

fn whole_at(value: &PackedRef<'_>, name: &str) -> Option<i128>
    ensures { result ≡ whole_at name.now value.now }
{
    value.member(name)?.as_whole()
}

fn is_version(number: u64, value: &PackedRef<'_>) -> bool
    ensures { result ≡ is_version number value.now }
{
    match whole_at(value, "version") {
        Some(found) => found == number as i128,
        None => false,
    }
}

fn is_form_1(value: &PackedRef<'_>) -> bool
    ensures { result ≡ is_form known value.now }
{
    is_form(&KNOWN, value)
}

fn is_form_2(value: &PackedRef<'_>) -> bool
    ensures { result ≡ is_form known_2 value.now }
{
    is_form(&KNOWN_2, value)
}

fn has_known(value: &PackedRef<'_>) -> bool
    ensures { result ≡ has_known value.now }
{
    if is_version(2, value) {
        is_form_2(value)
    } else {
        is_form_1(value)
    }
}

fn is_setup_form(value: &PackedRef<'_>) -> bool
    ensures { result ≡ is_setup_form value.now }
{
    has_text_at(value, "kind", "PastSetup") && has_all(&REQUIRED, value) && has_known(value)
}

// The policy that was read, or the rule that is broken where its tree isn't in its form.
fn policy_or_rule(read: Result<Policy, PolicyFault>) -> Result<Policy, SetupFault>
    ensures policy { IfOk result (λ policy. read ≡ Ok policy) }
    ensures form { (rule : SetupRule) → result ≡ Err (Rule rule) → (rule ≡ SetupRule.S7)
        × ((number : ℕ) × (read ≡ Err (PolicyFault.Form number))) }
    ensures memory { result ≡ Err SetupFault.OutOfMemory → read ≡ Err PolicyFault.OutOfMemory }
{
    match read {
        Ok(policy) => Ok(policy),
        Err(PolicyFault::Form { .. }) => Err(SetupFault::Rule(SetupRule::S7)),
        Err(PolicyFault::OutOfMemory) => Err(SetupFault::OutOfMemory),
    }
}

fn policy_at(alloc: Global, value: &PackedRef<'_>) -> Result<Policy, SetupFault>
    ensures policy { IfOk result (λ policy. policy_at value.now ≡ Ok policy) }
    ensures cause { IfErr result (IsCause (policy_at value.now)) }
    ensures memory { result ≡ Err SetupFault.OutOfMemory → IsSome
        (member_of (codes "policy") value.now) }
{
    let Some(member) = value.member("policy") else {
        return Err(SetupFault::Rule(SetupRule::S7));
    };
    let tree = member.tree(alloc)?;
    policy_or_rule(read_policy(alloc, &tree))
}

// What stands on the resources and the snapshot of a setup: what it says of authorization, and its checkpoints.
fn rest_at(
    alloc: Global,
    start: Revision,
    resources: &TrackedList,
    snapshot: &[SnapshotObject],
    value: &PackedRef<'_>,
) -> Result<(Authorization, Checkpoints), SetupFault>
    ensures rest { IfOk result (λ rest. rest_at start resources.now snapshot.now
        value.now ≡ Ok rest) }
    ensures cause { IfErr result (IsCause (rest_at start resources.now snapshot.now value.now)) }
{
    let Some(authorization) = read_authorization(alloc, value)? else {
        return Err(SetupFault::Rule(SetupRule::S14));
    };
    if !is_authorized(alloc, resources, snapshot, &authorization)? {
        return Err(SetupFault::Rule(SetupRule::S14));
    }
    match read_checkpoints(alloc, start, resources, value.member("checkpoints"))? {
        Some(checkpoints) => Ok((authorization, checkpoints)),
        None => Err(SetupFault::Rule(SetupRule::S15)),
    }
}

// Reads a setup of a version that is known.
fn setup_with(alloc: Global, value: &PackedRef<'_>, seed: Seed) -> Result<Setup, SetupFault>
    ensures setup { IfOk result (λ setup. setup_with value.now ≡ Ok setup) }
    ensures cause { IfErr result (IsCause (setup_with value.now)) }
{
    let clocks = read_clocks(value)?;
    let policy = policy_at(alloc, value)?;
    let resources = read_resources(alloc, value, seed)?;
    let snapshot = read_snapshot(alloc, clocks.start, &resources, value, seed)?;
    let (authorization, checkpoints) = rest_at(
        alloc,
        clocks.start,
        &resources,
        snapshot.as_slice(),
        value,
    )?;
    Ok(Setup {
        start: clocks.start,
        start_time: clocks.start_time,
        until: clocks.until,
        slack: clocks.slack,
        lag: clocks.lag,
        policy,
        authorize: authorization.authorize,
        resources,
        snapshot,
        bypass: authorization.bypass,
        skip: authorization.skip,
        checkpoints,
    })
}

fn setup_of(alloc: Global, value: &PackedRef<'_>, seed: Seed) -> Result<Setup, SetupFault>
    ensures setup { IfOk result (λ setup. setup_of value.now ≡ Ok setup) }
    ensures cause { IfErr result (IsCause (setup_of value.now)) }
{
    if !is_setup_form(value) {
        return Err(SetupFault::Rule(SetupRule::S2));
    }
    if !is_version(1, value) && !is_version(2, value) {
        return Err(SetupFault::Rule(SetupRule::S3));
    }
    setup_with(alloc, value, seed)
}

// The tree of a text in packed form, or the first rule.
fn packed_of(alloc: Global, bytes: &[u8]) -> Result<Packed, SetupFault>
    ensures tree { IfOk result (IsTreeOf bytes.now) }
    ensures range { IfOk result InRange }
    ensures none { (rule : SetupRule) → result ≡ Err (Rule rule) → (rule ≡ S1) × ((tree : Meaning)
        → IsTreeOf bytes.now tree → ⊥) }
{
    let value = match Value::from_slice(alloc, bytes) {
        Ok(value) => value,
        Err(fault) if fault.is_memory() => return Err(SetupFault::OutOfMemory),
        Err(_) => return Err(SetupFault::Rule(SetupRule::S1)),
    };
    match pack(alloc, &value) {
        Ok(packed) => Ok(packed),
        Err(TreeFault::Fraction) => Err(SetupFault::Rule(SetupRule::S1)),
        Err(TreeFault::OutOfMemory) => Err(SetupFault::OutOfMemory),
    }
}

/// Reads a setup: one JSON object. Of the rules that it breaks, the first in their order is the fault. The hashes
/// of what is compared begin with the seed.
pub fn read_setup(alloc: Global, bytes: &[u8], seed: Seed) -> Result<Setup, SetupFault>
    ensures setup { IfOk result (λ setup. ReadsAs bytes.now (Ok setup)) }
    ensures sound { length bytes.now ≤ 2 ^ 28 → IfOk result IsSound }
    ensures cause { (rule : SetupRule) → result ≡ Err (Rule rule) → ReadsAs bytes.now (Err rule) }
{
    let packed = packed_of(alloc, bytes)?;
    setup_of(alloc, &packed.root(), seed)
}
