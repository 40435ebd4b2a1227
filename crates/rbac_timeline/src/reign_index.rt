ghost use Rattle.std.specs.Prelude.{◌≡◌, ◌∷◌, [], List, IfOk, OnOk, Some};
ghost use Rattle.std.specs.BTreeMap.{Updates};
ghost use Rattle.clouds.specs.Items.{AddsAt, items_at};
ghost use Rattle.clouds.specs.Kept.{text_order};
ghost use Rattle.rbac_timeline.specs.Reigning.{AddsReigns, AreReigning, AreReigns, found_reigns, reign_of};
ghost use Rattle.rbac_timeline.specs.Reigning.{reigns_at};
ghost use Rattle.rbac_timeline.specs.Kept.{AreGaps};
ghost use Rattle.rbac_timeline.specs.declared.version.RbacEnd.{RbacEnd};

use crate::begun::{Begun, in_order};
use crate::history::Removals;
use crate::index::account_user;
use crate::named::named_subjects;
use crate::reigns::{Reign, Reigns};
use crate::version::RbacVersion;
use base_types::{OutOfMemory, Text};
use rbac_rules::Subject;
use std::alloc::Global;
use std::collections::BTreeMap;

type ByText = BTreeMap<Text, Reigns>;

fn one_reign(alloc: Global, reign: Reign) -> Result<Reigns, OutOfMemory>
    ensures { IfOk result (λ reigns. reigns ≡ reign ∷ []) }
{
    let mut reigns = Reigns::new(alloc);
    reigns.push(reign)?;
    Ok(reigns)
}

// The first reign under a text.
fn begin_under(
    alloc: Global,
    map: &mut ByText,
    text: &Text,
    reign: Reign,
) -> Result<(), OutOfMemory>
    ensures { OnOk result (Updates text_order map.old map.new text.now (Some (reign ∷ []))) }
{
    let reigns = one_reign(alloc, reign)?;
    let Ok(copy) = text.clone() else {
        drop(reigns);
        return Err(OutOfMemory);
    };
    drop(map.insert(copy, reigns)?);
    Ok(())
}

fn add_under(alloc: Global, map: &mut ByText, text: &Text, reign: Reign) -> Result<(), OutOfMemory>
    ensures { OnOk result (AddsAt text_order map.old map.new text.now reign) }
{
    match map.get_mut(text) {
        Some(reigns) => {
            reigns.push(reign)?;
            return Ok(());
        }
        None => begin_under(alloc, map, text, reign)?,
    }
    Ok(())
}

fn found<'a>(map: &'a ByText, text: &Text) -> Option<&'a Reigns>
    ensures { found_reigns result ≡ items_at text_order map.now text.now }
{
    map.get(text)
}

/// The reigns of bindings by whom their versions name: a user, that a service account may be, or a group.
#[derive(Drop)]
pub struct ReignIndex {
    users: ByText,
    groups: ByText,
}

impl ReignIndex {
    ghost use Rattle.rbac_timeline.specs.Reigning.{AsGroup, AsUser};

    fn new(alloc: Global) -> ReignIndex
        ensures { AreReigns result [] }
    {
        ReignIndex {
            users: BTreeMap::new(alloc),
            groups: BTreeMap::new(alloc),
        }
    }

    fn add(&mut self, alloc: Global, subject: &Subject, reign: Reign) -> Result<(), OutOfMemory>
        ensures { OnOk result (AddsReigns self.old self.new (subject.now ∷ []) reign) }
    {
        match subject {
            Subject::User(name) => {
                add_under(alloc, &mut self.users, name, reign)?;
                return Ok(());
            }
            Subject::Group(name) => {
                add_under(alloc, &mut self.groups, name, reign)?;
                return Ok(());
            }
            Subject::ServiceAccount { namespace, name } => {
                let Ok(user) = account_user(alloc, namespace, name) else {
                    drop(reign);
                    return Err(OutOfMemory);
                };
                add_under(alloc, &mut self.users, &user, reign)?;
            }
        }
        Ok(())
    }

    // For each of the subjects.
    fn add_each(
        &mut self,
        alloc: Global,
        subjects: &[Subject],
        begun: &Begun<'_>,
    ) -> Result<(), OutOfMemory>
        ensures { OnOk result (AddsReigns self.old self.new subjects.now (reign_of begun.now)) }
    {
        for subject in subjects {
            let reign = begun.reign()?;
            self.add(alloc, subject, reign)?;
        }
        Ok(())
    }

    // Of these versions.
    fn of_begun(alloc: Global, versions: &[Begun<'_>]) -> Result<ReignIndex, OutOfMemory>
        ensures { IfOk result (λ index. AreReigns index versions.now) }
    {
        let mut index = ReignIndex::new(alloc);
        for begun in versions {
            let subjects = named_subjects(&begun.version.key, &begun.version.content);
            index.add_each(alloc, subjects, begun)?;
        }
        Ok(index)
    }

    /// Of the versions, with the removals of their objects.
    pub fn of(
        alloc: Global,
        versions: &[RbacVersion],
        removals: &Removals,
    ) -> Result<ReignIndex, OutOfMemory>
        ensures { IfOk result (λ index. (ends : List RbacEnd) → AreGaps removals.now ends
            → AreReigning index versions.now ends) }
    {
        let begun = in_order(alloc, versions, removals)?;
        let index = ReignIndex::of_begun(alloc, begun.as_slice())?;
        Ok(index)
    }

    /// Of bindings that name a user.
    pub fn of_user(&self, name: &Text) -> Option<&Reigns>
        ensures { found_reigns result ≡ reigns_at self.now AsUser name.now }
    {
        found(&self.users, name)
    }

    /// Of bindings that name a group.
    pub fn of_group(&self, name: &Text) -> Option<&Reigns>
        ensures { found_reigns result ≡ reigns_at self.now AsGroup name.now }
    {
        found(&self.groups, name)
    }
}
