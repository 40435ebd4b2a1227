ghost use Rattle.std.specs.Prelude.{◌≡◌, ℕ, ◌∷◌, ◌++◌, [], List, Some, None, IfOk, OnOk};
ghost use Rattle.std.specs.BTreeMap.{Updates, get};
ghost use Rattle.clouds.specs.Kept.{text_order};
ghost use Rattle.clouds.specs.declared.span.OpaqueSpan.{OpaqueSpan};
ghost use Rattle.rbac_timeline.specs.Kinds.{is_nameless, nameless_kind};
ghost use Rattle.rbac_timeline.specs.Nameless.{AreLows, is_below, lesser_of, may_grant};

use crate::kind::{Kind, is_kind, kind_of};
use base_types::{Cover, CoverName, OutOfMemory, RequestAttrs, Text};
use clouds::{OpaqueSpan, lesser_place};
use std::alloc::Global;
use std::collections::BTreeMap;

/// The creates of bindings whose names aren't known. Such a binding may be there from then on, so of those
/// that reach the same requests the one that may have been first counts.
#[derive(Drop)]
pub struct Nameless {
    by_namespace: BTreeMap<Text, u64>,
    // Those whose namespace may be any.
    anywhere: Option<u64>,
    cluster_bindings: Option<u64>,
}

fn lesser(other: Option<u64>, low: u64) -> u64
    ensures { result ≡ lesser_of other low }
{
    match other {
        Some(other) => other.min(low),
        None => low,
    }
}

fn is_below(low: Option<u64>, place: u64) -> bool
    ensures { result ≡ is_below low place }
{
    match low {
        Some(low) => low < place,
        None => false,
    }
}

fn add_low(lows: &mut BTreeMap<Text, u64>, namespace: &Text, low: u64) -> Result<(), OutOfMemory>
    ensures { OnOk result (Updates text_order lows.old lows.new namespace.now
        (Some (lesser_of (get text_order lows.old namespace.now) low))) }
{
    let least = lesser(lows.get(namespace).copied(), low);
    let copy = namespace.clone()?;
    let _old = lows.insert(copy, least)?;
    Ok(())
}

fn is_nameless(name: &CoverName) -> bool
    ensures { result ≡ is_nameless name.now }
{
    !matches!(name, CoverName::Exact(_))
}

// The kind of an object that was created without a known name.
fn nameless_kind(cover: &Cover) -> Option<Kind>
    ensures { result ≡ nameless_kind cover.now }
{
    if cover.creates && is_nameless(&cover.name) {
        kind_of(&cover.group, &cover.resource)
    } else {
        None
    }
}

impl Nameless {
    fn new(alloc: Global) -> Nameless
        ensures { AreLows result [] }
    {
        Nameless {
            by_namespace: BTreeMap::new(alloc),
            anywhere: None,
            cluster_bindings: None,
        }
    }

    // Of a create of a RoleBinding.
    fn add_binding(&mut self, span: &OpaqueSpan) -> Result<(), OutOfMemory>
        requires { nameless_kind span.now.cover ≡ Some Kind.RoleBinding }
        ensures { OnOk result ((spans : List OpaqueSpan) → AreLows self.old spans
            → AreLows self.new (spans ++ span.now ∷ [])) }
    {
        match &span.cover.namespace {
            Some(namespace) => {
                add_low(&mut self.by_namespace, namespace, span.low)?;
                return Ok(());
            }
            None => {
                self.anywhere = Some(lesser(self.anywhere, span.low));
            }
        }
        Ok(())
    }

    fn add(&mut self, span: &OpaqueSpan) -> Result<(), OutOfMemory>
        ensures { OnOk result ((spans : List OpaqueSpan) → AreLows self.old spans
            → AreLows self.new (spans ++ span.now ∷ [])) }
    {
        let kind = nameless_kind(&span.cover);
        if is_kind(kind, Kind::RoleBinding) {
            self.add_binding(span)?;
            return Ok(());
        }
        if is_kind(kind, Kind::ClusterRoleBinding) {
            self.cluster_bindings = Some(lesser(self.cluster_bindings, span.low));
            return Ok(());
        }
        Ok(())
    }

    /// Of the unrecorded writes.
    pub fn of(alloc: Global, spans: &[OpaqueSpan]) -> Result<Nameless, OutOfMemory>
        ensures { IfOk result (λ nameless. AreLows nameless spans.now) }
    {
        let mut nameless = Nameless::new(alloc);
        for span in spans {
            nameless.add(span)?;
        }
        Ok(nameless)
    }

    /// The least place behind which one of a kind may be there and may grant the request.
    pub fn least(&self, kind: Kind, attrs: &RequestAttrs) -> Option<u64>
        ensures { (place : ℕ) → is_below result place ≡ may_grant self.now kind place attrs.now }
    {
        match kind {
            Kind::ClusterRoleBinding => self.cluster_bindings,
            Kind::RoleBinding => {
                if !attrs.is_resource {
                    return None;
                }
                let in_namespace = self.by_namespace.get(&attrs.namespace).copied();
                lesser_place(self.anywhere, in_namespace)
            }
            _ => None,
        }
    }

    /// Whether one of a kind may be there before the place, and may grant the request.
    pub fn may_grant(&self, kind: Kind, place: u64, attrs: &RequestAttrs) -> bool
        ensures { result ≡ may_grant self.now kind place attrs.now }
    {
        match kind {
            Kind::ClusterRoleBinding => is_below(self.cluster_bindings, place),
            Kind::RoleBinding => {
                let in_namespace = is_below(
                    self.by_namespace.get(&attrs.namespace).copied(),
                    place,
                );
                let anywhere = is_below(self.anywhere, place);
                attrs.is_resource && (anywhere || in_namespace)
            }
            _ => false,
        }
    }
}
