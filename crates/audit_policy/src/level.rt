ghost use Rattle.std.specs.Prelude.{◌≡◌, option_map, find};
ghost use Rattle.audit_policy.specs.Levels.{union, policy_level};
ghost use Rattle.audit_policy.specs.Matches.{rule_matches};

use crate::policy::{AuditRule, AuditRules, Policy};
use base_types::{PolicyLevel, RequestAttrs, StageSet, User};

// The stages of either set.
fn union(a: StageSet, b: StageSet) -> StageSet
    ensures { result ≡ union a b }
{
    StageSet {
        received: a.received || b.received,
        started: a.started || b.started,
        complete: a.complete || b.complete,
        panic: a.panic || b.panic,
    }
}

fn first_match<'a>(
    rules: &'a AuditRules,
    attrs: &RequestAttrs,
    user: &User,
) -> Option<&'a AuditRule>
    ensures { option_map (λ rule. rule.now) result ≡ find
        (rule_matches attrs.now user.now) rules.now }
{
    rules.iter().find(|rule| rule.matches(attrs, user))
}

/// The level of the first rule that takes the request, and the stages that the policy and this rule
/// omit; `NoLevel` where no rule takes it.
pub fn level_of(policy: &Policy, attrs: &RequestAttrs, user: &User) -> (PolicyLevel, StageSet)
    ensures { result ≡ policy_level policy.now attrs.now user.now }
{
    match first_match(&policy.rules, attrs, user) {
        Some(rule) => (rule.level, union(policy.omitted, rule.omitted)),
        None => (PolicyLevel::NoLevel, policy.omitted),
    }
}
