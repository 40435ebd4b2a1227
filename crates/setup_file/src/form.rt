ghost use Rattle.std.specs.Prelude.{◌≡◌, map, bytes_eq};
ghost use Rattle.std.specs.List.{list_any};
ghost use Rattle.setup_file.specs.Forms.{has_only, is_form};

use packed_tree::{PackedMembers, PackedRef};

// Whether a text is one of these.
fn is_one_of(known: &[&str], name: &str) -> bool
    ensures { result ≡ list_any (λ known. bytes_eq name.now known.now) known.now }
{
    for known_name in known {
        if name == *known_name {
            return true;
        }
    }
    false
}

fn is_known(known: &[&str], name: &str) -> bool
    ensures { result ≡ list_any (bytes_eq name.now) (map (λ known. known.now) known.now) }
{
    is_one_of(&*known, name)
}

fn has_only(known: &[&str], members: PackedMembers<'_>) -> bool
    ensures { result ≡ has_only (map (λ name. name.now) known.now) members.entry }
{
    let mut rest = members;
    'members: while let Some((name, _value)) = rest.next() {
        if !is_known(known, name) {
            return false;
        }
    }
    true
}

/// Whether a value is an object with no member but those of these names.
pub fn is_form(known: &[&str], value: &PackedRef<'_>) -> bool
    ensures { result ≡ is_form (map (λ name. name.now) known.now) value.now }
{
    match value.as_members() {
        Some(members) => has_only(known, members),
        None => false,
    }
}
