ghost use Rattle.std.specs.Prelude.{◌≡◌, Some, IfOk, OnOk, option_map};
ghost use Rattle.std.specs.BTreeMap.{Updates};
ghost use Rattle.std.specs.Cmp.Lexicographic.{slice_cmp};
ghost use Rattle.std.specs.Ordering.{nat_cmp};
ghost use Rattle.std.specs.Slice.Iter.{iter_rest};
ghost use Rattle.setup_file.specs.Indexed.{PutsPlace};
ghost use Rattle.setup_file.specs.Resources.{tracked_as};

use crate::setup::Tracked;
use base_types::{OutOfMemory, Text};
use std::alloc::Global;
use std::collections::BTreeMap;
use std::marker::Model;
use std::slice;

// Where the resources of one group stand, by their type.
type Places = BTreeMap<Text, usize>;

type Groups = BTreeMap<Text, Places>;

/// The resources that are judged, in the order of the setup. Each is found by its group and its type without going
/// through the others.
pub struct TrackedList {
    all: Vec<Tracked>,
    groups: Groups,
}

impl Model for TrackedList {
    ghost use Rattle.std.specs.Prelude.{List};
    ghost use Rattle.setup_file.specs.declared.setup.Tracked.{Tracked};
    ghost use Rattle.setup_file.specs.Indexed.{AreIndexed};

    ghost Value = { List Tracked };

    ghost view = { λ l. l.all.items };

    ghost invariant = { λ l. AreIndexed l.groups l.all.items };
}

// Written out, so that a function which drops the list makes one call for it.
impl Drop for TrackedList {
    fn drop(self) {
        let TrackedList { all, groups } = self;
        drop(all);
        drop(groups);
    }
}

// Puts the place of a resource among those of its group.
fn put_among(places: &mut Places, tracked: &Tracked, place: usize) -> Result<(), OutOfMemory>
    ensures { OnOk result (Updates (slice_cmp nat_cmp) places.old places.new tracked.now.resource
        (Some place)) }
{
    let resource = tracked.resource.clone()?;
    let _later = places.insert(resource, place)?;
    Ok(())
}

// Puts the place of a resource into the index, in front of those behind it.
fn put_place(
    alloc: Global,
    groups: &mut Groups,
    tracked: &Tracked,
    place: usize,
) -> Result<(), OutOfMemory>
    ensures { OnOk result (PutsPlace groups.old groups.new tracked.now place) }
{
    match groups.get_mut(&tracked.group) {
        Some(places) => {
            put_among(places, tracked, place)?;
            return Ok(());
        }
        None => {
            let mut places = Places::new(alloc);
            put_among(&mut places, tracked, place)?;
            let _none = groups.insert(tracked.group.clone()?, places)?;
        }
    }
    Ok(())
}

impl TrackedList {
    /// These resources with their index. They are put in from the last to the first, so that the first of a group and
    /// type stays.
    pub fn of(alloc: Global, all: Vec<Tracked>) -> Result<TrackedList, OutOfMemory>
        ensures { IfOk result (λ resources. resources ≡ all.items) }
    {
        let mut groups = Groups::new(alloc);
        for place in (0..all.len()).rev() {
            put_place(alloc, &mut groups, &all[place], place)?;
        }
        Ok(TrackedList { all, groups })
    }

    pub fn iter(&self) -> slice::Iter<'_, Tracked>
        ensures { iter_rest result ≡ self.now }
    {
        self.all.iter()
    }

    /// The resource of this group and type.
    pub fn find(&self, group: &Text, resource: &Text) -> Option<&Tracked>
        ensures { option_map (λ tracked. tracked.now) result
            ≡ tracked_as self.now group.now resource.now }
    {
        let places = self.groups.get(group)?;
        let place = places.get(resource)?;
        self.all.get(*place)
    }

    /// The resource of a group and a type that are read in place.
    pub(crate) fn find_named(
        &self,
        alloc: Global,
        group: &str,
        resource: &str,
    ) -> Result<Option<&Tracked>, OutOfMemory>
        ensures { IfOk result (λ found. option_map (λ tracked. tracked.now) found
            ≡ tracked_as self.now group.now resource.now) }
    {
        let group = Text::from_str(alloc, group)?;
        let resource = Text::from_str(alloc, resource)?;
        Ok(self.find(&group, &resource))
    }
}
