ghost use Rattle.std.specs.Prelude.{◌≡◌, ◌<◌, Err, None, length, IfOk, OnOk};
ghost use Rattle.node_pool.specs.Subtrees.{interned};
ghost use Rattle.log_context.specs.LogSelectors.{selector_in};
ghost use Rattle.log_context.specs.LogTrees.{object_trees, answer_trees, with_trees};
ghost use Rattle.log_context.specs.Shown.{object_of, IsItemOf, AreItemsOf, IsShownAs};

use crate::log::fault::BuildFault;
use answer_class::Answer;
use base_types::{ObjectKey, Revision, Text};
use label_select::Selector;
use node_pool::Interner;
use packed_tree::{Packed, PackedRef};
use setup_file::{Snapshot, SnapshotObject};
use std::alloc::Global;
use write_groups::{Item, Items, Listing, Shown};

fn item_of(
    pool: &mut Interner,
    key: ObjectKey,
    revision: Revision,
    uid: Text,
    tree: &PackedRef<'_>,
) -> Result<Item, BuildFault>
    ensures item { IfOk result (IsItemOf pool.new.trees (object_of key revision uid tree.now)) }
    ensures added { OnOk result (pool.new.trees ≡ interned pool.old.trees tree.now) }
    ensures full { result ≡ Err BuildFault.PoolFull
        → pool.old.limit < length (interned pool.old.trees tree.now) }
    ensures limit { pool.new.limit ≡ pool.old.limit }
{
    let node = pool.intern_like(&uid, tree)?;
    Ok(Item {
        key,
        revision,
        uid,
        node,
    })
}

// The same, where the tree is given away: it is let go in one call, once it is in the pool.
fn item_with(
    pool: &mut Interner,
    key: ObjectKey,
    revision: Revision,
    uid: Text,
    tree: Packed,
) -> Result<Item, BuildFault>
    ensures item { IfOk result (IsItemOf pool.new.trees (object_of key revision uid tree)) }
    ensures added { OnOk result (pool.new.trees ≡ interned pool.old.trees tree) }
    ensures full { result ≡ Err BuildFault.PoolFull
        → pool.old.limit < length (interned pool.old.trees tree) }
    ensures limit { pool.new.limit ≡ pool.old.limit }
{
    let item = item_of(pool, key, revision, uid, &tree.root());
    drop(tree);
    item
}

// The item of an object that stays where it is.
fn copied_item(pool: &mut Interner, object: &SnapshotObject) -> Result<Item, BuildFault>
    ensures item { IfOk result (IsItemOf pool.new.trees object.now) }
    ensures added { OnOk result (pool.new.trees ≡ interned pool.old.trees object.now.tree) }
    ensures full { result ≡ Err BuildFault.PoolFull
        → pool.old.limit < length (interned pool.old.trees object.now.tree) }
    ensures limit { pool.new.limit ≡ pool.old.limit }
{
    let key = object.key.clone()?;
    let uid = object.uid.clone()?;
    item_of(pool, key, object.revision, uid, &object.tree.root())
}

/// The items of objects, whose trees are put into the pool one after another.
pub fn items_of(
    alloc: Global,
    pool: &mut Interner,
    objects: &[SnapshotObject],
) -> Result<Items, BuildFault>
    ensures items { IfOk result (AreItemsOf pool.new.trees objects.now) }
    ensures added { OnOk result
        (pool.new.trees ≡ with_trees pool.old.trees (object_trees objects.now)) }
    ensures full { result ≡ Err BuildFault.PoolFull
        → pool.old.limit < length (with_trees pool.old.trees (object_trees objects.now)) }
    ensures limit { pool.new.limit ≡ pool.old.limit }
{
    let mut items = Items::new(alloc);
    for object in objects {
        items.push(copied_item(pool, object)?)?;
    }
    Ok(items)
}

fn moved_item(pool: &mut Interner, object: SnapshotObject) -> Result<Item, BuildFault>
    ensures item { IfOk result (IsItemOf pool.new.trees object) }
    ensures added { OnOk result (pool.new.trees ≡ interned pool.old.trees object.tree) }
    ensures full { result ≡ Err BuildFault.PoolFull
        → pool.old.limit < length (interned pool.old.trees object.tree) }
    ensures limit { pool.new.limit ≡ pool.old.limit }
{
    let SnapshotObject {
        key,
        revision,
        uid,
        tree,
    } = object;
    item_with(pool, key, revision, uid, tree)
}

// The items of objects that are given away, so that nothing of them is copied.
fn moved_items(alloc: Global, pool: &mut Interner, objects: Snapshot) -> Result<Items, BuildFault>
    ensures items { IfOk result (AreItemsOf pool.new.trees objects) }
    ensures added { OnOk result
        (pool.new.trees ≡ with_trees pool.old.trees (object_trees objects)) }
    ensures full { result ≡ Err BuildFault.PoolFull
        → pool.old.limit < length (with_trees pool.old.trees (object_trees objects)) }
    ensures limit { pool.new.limit ≡ pool.old.limit }
{
    let mut items = Items::new(alloc);
    for object in objects.into_vec() {
        items.push(moved_item(pool, object)?)?;
    }
    Ok(items)
}

/// An answer, and the label selector of a list.
#[derive(Drop)]
pub struct ToldAnswer {
    pub shown: Shown,
    pub selector: Option<Selector>,
}

fn unselected(shown: Shown) -> ToldAnswer
    ensures shown { result.shown ≡ shown }
    ensures selector { result.selector ≡ None }
{
    ToldAnswer {
        shown,
        selector: None,
    }
}

// What a list shows, of which all parts are given away.
fn tell_list(
    alloc: Global,
    pool: &mut Interner,
    group: Text,
    resource: Text,
    namespace: Text,
    revision: Revision,
    whole: bool,
    objects: Snapshot,
    selector: Option<Selector>,
) -> Result<ToldAnswer, BuildFault>
    ensures shown { IfOk result (λ told. IsShownAs pool.new.trees
        (Answer.Listed group resource namespace revision whole objects selector) told.shown) }
    ensures selector { IfOk result (λ told. told.selector ≡ selector) }
    ensures added { OnOk result
        (pool.new.trees ≡ with_trees pool.old.trees (object_trees objects)) }
    ensures full { result ≡ Err BuildFault.PoolFull
        → pool.old.limit < length (with_trees pool.old.trees (object_trees objects)) }
    ensures limit { pool.new.limit ≡ pool.old.limit }
{
    let items = moved_items(alloc, pool, objects)?;
    let listing = Listing {
        group,
        resource,
        namespace,
        revision,
        whole,
        items,
    };
    Ok(ToldAnswer {
        shown: Shown::Listed { listing },
        selector,
    })
}

/// What an answer shows, once the trees of its objects are in the pool.
pub fn tell(alloc: Global, pool: &mut Interner, answer: Answer) -> Result<ToldAnswer, BuildFault>
    ensures shown { IfOk result (λ told. IsShownAs pool.new.trees answer told.shown) }
    ensures selector { IfOk result (λ told. told.selector ≡ selector_in answer) }
    ensures added { OnOk result (pool.new.trees ≡ with_trees pool.old.trees (answer_trees answer)) }
    ensures full { result ≡ Err BuildFault.PoolFull
        → pool.old.limit < length (with_trees pool.old.trees (answer_trees answer)) }
    ensures limit { pool.new.limit ≡ pool.old.limit }
{
    match answer {
        Answer::Made {
            key,
            revision,
            uid,
            tree,
            created,
        } => {
            let item = item_with(pool, key, revision, uid, tree)?;
            Ok(unselected(Shown::Made { item, created }))
        }
        Answer::Saw {
            key,
            revision,
            uid,
            tree,
        } => {
            let item = item_with(pool, key, revision, uid, tree)?;
            Ok(unselected(Shown::Saw { item }))
        }
        Answer::Listed {
            group,
            resource,
            namespace,
            revision,
            whole,
            items,
            selector,
        } => tell_list(
            alloc, pool, group, resource, namespace, revision, whole, items, selector,
        ),
        Answer::Removed { key, uid } => Ok(unselected(Shown::Removed { key, uid })),
        Answer::Opaque { cover } => Ok(unselected(Shown::Opaque { cover })),
        Answer::SawNone { key } => Ok(unselected(Shown::SawNone { key })),
        Answer::SawSome { key } => Ok(unselected(Shown::SawSome { key })),
        Answer::SawOther { key } => Ok(unselected(Shown::SawOther { key })),
        Answer::Free => Ok(unselected(Shown::Free)),
        Answer::Aside => Ok(unselected(Shown::Aside)),
    }
}
