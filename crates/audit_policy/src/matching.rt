ghost use Rattle.std.specs.Prelude.{◌≡◌};
ghost use Rattle.std.specs.List.{list_any};
ghost use Rattle.base_types.specs.Matching.{has_text, path_matches};
ghost use Rattle.audit_policy.specs.Matches.{takes, pattern_matches, item_matches, user_matches, resource_matches};
ghost use Rattle.audit_policy.specs.Matches.{url_matches, rule_matches};

use crate::policy::{AuditRule, GroupResources, GroupResourcesList};
use base_types::{RequestAttrs, Text, Texts, User, has_text, is_combined, path_matches};

// Whether a condition takes a text.
fn takes(condition: &Texts, text: &Text) -> bool
    ensures { result ≡ takes condition.now text.now }
{
    condition.is_empty() || has_text(condition, text)
}

fn pattern_matches(pattern: &str, attrs: &RequestAttrs) -> bool
    ensures { result ≡ pattern_matches attrs.now pattern.now }
{
    let resource = attrs.resource.as_str();
    let subresource = attrs.subresource.as_str();
    if pattern == "*" || is_combined(pattern, resource, "*") {
        return true;
    }
    if subresource.is_empty() {
        return pattern == resource;
    }
    is_combined(pattern, resource, subresource) || is_combined(pattern, "*", subresource)
}

fn any_pattern(patterns: &Texts, attrs: &RequestAttrs) -> bool
    ensures { result ≡ list_any (pattern_matches attrs.now) patterns.now }
{
    patterns
        .iter()
        .any(|pattern| pattern_matches(pattern.as_str(), attrs))
}

fn any_item(items: &GroupResourcesList, attrs: &RequestAttrs) -> bool
    ensures { result ≡ list_any (item_matches attrs.now) items.now }
{
    items.iter().any(|item| item.matches(attrs))
}

fn any_url(entries: &Texts, path: &Text) -> bool
    ensures { result ≡ list_any (λ entry. path_matches entry path.now) entries.now }
{
    entries.iter().any(|entry| path_matches(entry, path))
}

// Whether a text of the second list is one of the first.
fn has_any(texts: &Texts, of: &Texts) -> bool
    ensures { result ≡ list_any (has_text texts.now) of.now }
{
    of.iter().any(|text| has_text(texts, text))
}

impl GroupResources {
    fn matches(&self, attrs: &RequestAttrs) -> bool
        ensures { result ≡ item_matches attrs.now self.now }
    {
        self.group == attrs.group
            && (self.resources.is_empty() || any_pattern(&self.resources, attrs))
            && takes(&self.resource_names, &attrs.name)
    }
}

impl AuditRule {
    fn matches_user(&self, user: &User) -> bool
        ensures { result ≡ user_matches user.now self.now }
    {
        takes(&self.users, &user.name)
            && (self.user_groups.is_empty() || has_any(&self.user_groups, &user.groups))
    }

    fn matches_resource(&self, attrs: &RequestAttrs) -> bool
        ensures { result ≡ resource_matches attrs.now self.now }
    {
        if self.resources.is_empty() && self.namespaces.is_empty() {
            return true;
        }
        attrs.is_resource
            && takes(&self.namespaces, &attrs.namespace)
            && (self.resources.is_empty() || any_item(&self.resources, attrs))
    }

    fn matches_url(&self, attrs: &RequestAttrs) -> bool
        ensures { result ≡ url_matches attrs.now self.now }
    {
        self.non_resource_urls.is_empty()
            || (!attrs.is_resource && any_url(&self.non_resource_urls, &attrs.path))
    }

    /// Whether the rule takes a request of this user.
    pub(crate) fn matches(&self, attrs: &RequestAttrs, user: &User) -> bool
        ensures { result ≡ rule_matches attrs.now user.now self.now }
    {
        self.matches_user(user)
            && takes(&self.verbs, &attrs.verb)
            && self.matches_resource(attrs)
            && self.matches_url(attrs)
    }
}
