ghost use Rattle.std.specs.Prelude.{◌≡◌, IfOk, option_map};
ghost use Rattle.borrowed_json.specs.View.{view, items_view};
ghost use Rattle.audit_event.specs.Users.{texts_in, name_of, groups_of, user_of, impersonated_of, users_in};

use crate::members::present;
use base_types::{OutOfMemory, Text, Texts, User};
use borrowed_json::JsonValue;
use std::alloc::Global;

// The texts of a list of which each item is a text.
fn read_texts(alloc: Global, list: &Vec<JsonValue<'_>>) -> Result<Option<Texts>, OutOfMemory>
    ensures { IfOk result (λ found. found ≡ texts_in (items_view list.now.items)) }
{
    let mut texts = Texts::new(alloc);
    for item in list {
        let Some(text) = item.as_str() else {
            return Ok(None);
        };
        texts.push(Text::from_str(alloc, text)?)?;
    }
    Ok(Some(texts))
}

fn read_groups(alloc: Global, member: Option<&JsonValue<'_>>) -> Result<Option<Texts>, OutOfMemory>
    ensures { IfOk result (λ found. found ≡ groups_of
        (option_map (λ value. view value.now) member.entry)) }
{
    let Some(value) = member else {
        return Ok(Some(Texts::new(alloc)));
    };
    match value.as_array() {
        Some(list) => read_texts(alloc, list),
        None => Ok(None),
    }
}

fn read_name(alloc: Global, member: Option<&JsonValue<'_>>) -> Result<Option<Text>, OutOfMemory>
    ensures { IfOk result (λ found. found ≡ name_of
        (option_map (λ value. view value.now) member.entry)) }
{
    let Some(value) = member else {
        return Ok(Some(Text::new(alloc)));
    };
    match value.as_str() {
        Some(text) => Ok(Some(Text::from_str(alloc, text)?)),
        None => Ok(None),
    }
}

// A UserInfo (Kubernetes API, `authentication.k8s.io/v1`).
fn read_user(alloc: Global, value: &JsonValue<'_>) -> Result<Option<User>, OutOfMemory>
    ensures { IfOk result (λ found. found ≡ user_of (view value.now)) }
{
    if !value.is_object() {
        return Ok(None);
    }
    let Some(name) = read_name(alloc, value.get("username"))? else {
        return Ok(None);
    };
    let Some(groups) = read_groups(alloc, present(value, "groups"))? else {
        return Ok(None);
    };
    Ok(Some(User { name, groups }))
}

fn read_impersonated(
    alloc: Global,
    member: Option<&JsonValue<'_>>,
) -> Result<Option<Option<User>>, OutOfMemory>
    ensures { IfOk result (λ found. found ≡ impersonated_of
        (option_map (λ value. view value.now) member.entry)) }
{
    match member {
        Some(value) => Ok(read_user(alloc, value)?.map(Some)),
        None => Ok(Some(None)),
    }
}

/// Who made the request, and as whom.
pub(crate) fn read_users(
    alloc: Global,
    value: &JsonValue<'_>,
) -> Result<Option<(User, Option<User>)>, OutOfMemory>
    ensures { IfOk result (λ found. found ≡ users_in (view value.now)) }
{
    let Some(member) = value.get("user") else {
        return Ok(None);
    };
    let Some(user) = read_user(alloc, member)? else {
        return Ok(None);
    };
    let member = present(value, "impersonatedUser");
    let Some(impersonated) = read_impersonated(alloc, member)? else {
        return Ok(None);
    };
    Ok(Some((user, impersonated)))
}
