ghost use Rattle.std.specs.Prelude.{◌≡◌, [], ◌∷◌, IfOk, OnErr, IsSome, IsTrue, codes};
ghost use Rattle.std.specs.Prelude.{option_and_then};
ghost use Rattle.base_types.specs.Parts.{items_of};
ghost use Rattle.base_types.specs.Texts.{text_at};
ghost use Rattle.setup_file.specs.Forms.{is_form};
ghost use Rattle.setup_file.specs.Resources.{effect_as, subresource_of, subresources_in};
ghost use Rattle.setup_file.specs.Resources.{are_named_apart, subresources_or_none};

use crate::distinct::are_texts_distinct;
use crate::form::is_form;
use crate::resources::shape_at;
use crate::setup::{Subresource, Subresources};
use crate::values::values_of;
use base_types::{OutOfMemory, Text};
use hash_seed::Seed;
use packed_tree::PackedRef;
use path_shape::FieldClass;
use std::alloc::Global;

fn effect_as(name: &str) -> Option<bool>
    ensures { result ≡ effect_as name.now }
{
    match name {
        "same" => Some(true),
        "none" => Some(false),
        _ => None,
    }
}

fn read_subresource(
    alloc: Global,
    value: &PackedRef<'_>,
) -> Result<Option<Subresource>, OutOfMemory>
    ensures subresource { IfOk result (λ found. found ≡ subresource_of value.now) }
    ensures form { OnErr result (IsTrue (is_form
        (codes "name" ∷ codes "effect" ∷ codes "shapes" ∷ []) value.now)) }
    ensures name { OnErr result (IsSome (text_at (codes "name") value.now)) }
    ensures effect { OnErr result (IsSome (option_and_then effect_as
        (text_at (codes "effect") value.now))) }
{
    if !is_form(&["name", "effect", "shapes"], value) {
        return Ok(None);
    }
    let Some(name) = value.text_at("name") else {
        return Ok(None);
    };
    let Some(effect) = value.text_at("effect") else {
        return Ok(None);
    };
    let Some(same) = effect_as(effect) else {
        return Ok(None);
    };
    let Some(shape) = shape_at(alloc, FieldClass::Kept, value)? else {
        return Ok(None);
    };
    let name = Text::from_str(alloc, name)?;
    Ok(Some(Subresource { name, same, shape }))
}

fn read_subresources(
    alloc: Global,
    values: &[PackedRef<'_>],
) -> Result<Option<Subresources>, OutOfMemory>
    ensures { IfOk result (λ found. found ≡ subresources_in values.now) }
{
    let mut subresources = Subresources::new(alloc);
    for value in values {
        let Some(subresource) = read_subresource(alloc, value)? else {
            return Ok(None);
        };
        subresources.push(subresource)?;
    }
    Ok(Some(subresources))
}

fn are_named_apart(
    alloc: Global,
    subresources: &[Subresource],
    seed: Seed,
) -> Result<bool, OutOfMemory>
    ensures { IfOk result (λ are. are ≡ are_named_apart subresources.now) }
{
    let mut names = Vec::with_capacity(alloc, subresources.len())?;
    for subresource in subresources {
        names.push(&subresource.name)?;
    }
    are_texts_distinct(alloc, &names, seed)
}

/// The subresources of an entry of `resources`, none where it lists none.
pub fn subresources_or_none(
    alloc: Global,
    member: Option<PackedRef<'_>>,
    seed: Seed,
) -> Result<Option<Subresources>, OutOfMemory>
    ensures list { IfOk result (λ found. found ≡ subresources_or_none member.entry) }
    ensures memory { OnErr result (IsSome (option_and_then items_of member.entry)) }
{
    let Some(member) = member else {
        return Ok(Some(Subresources::new(alloc)));
    };
    let Some(list) = member.as_items() else {
        return Ok(None);
    };
    let values = values_of(alloc, list)?;
    let Some(subresources) = read_subresources(alloc, &values)? else {
        return Ok(None);
    };
    if !are_named_apart(alloc, subresources.as_slice(), seed)? {
        return Ok(None);
    }
    Ok(Some(subresources))
}
