ghost use Rattle.std.specs.Prelude.{◌≡◌, IfOk};

use base_types::{ObjectKey, OutOfMemory, Text};

/// A key and the uid of an object that had it.
#[derive(Drop, PartialEq, Eq, Hash)]
pub struct Owner {
    pub key: ObjectKey,
    pub uid: Text,
}

/// Copies of a key and a uid.
pub fn owned(key: &ObjectKey, uid: &Text) -> Result<Owner, OutOfMemory>
    ensures key { IfOk result (λ owner. owner.key ≡ key.now) }
    ensures uid { IfOk result (λ owner. owner.uid ≡ uid.now) }
{
    Ok(Owner {
        key: key.clone()?,
        uid: uid.clone()?,
    })
}
