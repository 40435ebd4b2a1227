ghost use Rattle.std.specs.Prelude.{◌≡◌, ◌↔◌, IsTrue, [], ◌⊎◌, Any, Contains};
ghost use Rattle.rbac_rules.specs.Granting.{IsTextTaken, IsPathTaken, IsResourceNamed, IsNameTaken, GrantsResource};
ghost use Rattle.rbac_rules.specs.Granting.{GrantsPath, Grants};

use crate::role::PolicyRule;
use base_types::{RequestAttrs, Text, Texts, has_text, is_combined, path_matches};

// Whether an item of a list of verbs or of groups takes one.
fn takes_text(item: &Text, text: &Text) -> bool
    ensures { IsTrue result ↔ IsTextTaken text.now item.now }
{
    item.as_str() == "*" || item == text
}

fn any_text(items: &Texts, text: &Text) -> bool
    ensures { IsTrue result ↔ Any (IsTextTaken text.now) items.now }
{
    items.iter().any(|item| takes_text(item, text))
}

// Whether an entry of `resources` names what the request is for.
fn names_resource(entry: &str, attrs: &RequestAttrs) -> bool
    ensures { IsTrue result ↔ IsResourceNamed attrs.now entry.now }
{
    let resource = attrs.resource.as_str();
    let subresource = attrs.subresource.as_str();
    if entry == "*" {
        return true;
    }
    if subresource.is_empty() {
        return entry == resource;
    }
    is_combined(entry, resource, subresource) || is_combined(entry, "*", subresource)
}

fn any_resource(entries: &Texts, attrs: &RequestAttrs) -> bool
    ensures { IsTrue result ↔ Any (IsResourceNamed attrs.now) entries.now }
{
    entries
        .iter()
        .any(|entry| names_resource(entry.as_str(), attrs))
}

fn any_path(entries: &Texts, path: &Text) -> bool
    ensures { IsTrue result ↔ Any (IsPathTaken path.now) entries.now }
{
    entries.iter().any(|entry| path_matches(entry, path))
}

// Without names every name is taken.
fn takes_name(names: &Texts, name: &Text) -> bool
    ensures { IsTrue result ↔ IsNameTaken names.now name.now }
{
    names.is_empty() || has_text(names, name)
}

impl PolicyRule {
    fn grants_resource(&self, attrs: &RequestAttrs) -> bool
        ensures { IsTrue result ↔ GrantsResource attrs.now self.now }
    {
        attrs.is_resource
            && any_text(&self.verbs, &attrs.verb)
            && any_text(&self.api_groups, &attrs.group)
            && any_resource(&self.resources, attrs)
            && takes_name(&self.resource_names, &attrs.name)
    }

    fn grants_path(&self, attrs: &RequestAttrs) -> bool
        ensures { IsTrue result ↔ GrantsPath attrs.now self.now }
    {
        !attrs.is_resource
            && any_text(&self.verbs, &attrs.verb)
            && any_path(&self.non_resource_urls, &attrs.path)
    }

    fn grants(&self, attrs: &RequestAttrs) -> bool
        ensures { IsTrue result ↔ (GrantsResource attrs.now self.now
            ⊎ GrantsPath attrs.now self.now) }
    {
        self.grants_resource(attrs) || self.grants_path(attrs)
    }
}

/// Whether one of the rules grants the request.
pub fn grants(rules: &[PolicyRule], attrs: &RequestAttrs) -> bool
    ensures { IsTrue result ↔ Grants rules.now attrs.now }
{
    rules.iter().any(|rule| rule.grants(attrs))
}
