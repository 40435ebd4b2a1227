ghost use Rattle.std.specs.Prelude.{◌≡◌, ◌↔◌, true, false, IsTrue, OnOk};
ghost use Rattle.object_past.specs.Incarnated.{HasOtherLast, IsExtended};

use crate::version::Version;
use base_types::{OutOfMemory, Revision, Text};

/// An object's versions with one uid, without another uid's between them.
#[derive(Drop)]
pub struct Incarnation {
    /// `metadata.uid`
    pub uid: Text,
    /// The revision of its first version.
    pub first: Revision,
    /// The revision of its last version.
    pub last: Revision,
    /// The position of its removal's range, if it was removed.
    pub range: Option<u32>,
}

/// Whether the incarnation has this uid.
pub fn has_uid(incarnation: &Incarnation, uid: &Text) -> bool
    ensures { IsTrue result ↔ (incarnation.now.uid ≡ uid.now) }
{
    incarnation.uid == *uid
}

// Lets the last incarnation go on with the key's next version, if it has the version's uid.
fn go_on(incarnations: &mut Vec<Incarnation>, version: &Version, range: Option<u32>) -> bool
    ensures yes { result ≡ true
        → IsExtended incarnations.old.items incarnations.new.items version.now range }
    ensures no { result ≡ false → incarnations.new.items ≡ incarnations.old.items }
    ensures other { result ≡ false → HasOtherLast incarnations.old.items version.now }
{
    let Some(last) = incarnations.last_mut() else {
        return false;
    };
    if !has_uid(last, &version.uid) {
        return false;
    }
    last.last = version.revision;
    last.range = range;
    true
}

/// Takes the key's next version, which was removed within the range at this position.
pub fn extend(
    incarnations: &mut Vec<Incarnation>,
    version: &Version,
    range: Option<u32>,
) -> Result<(), OutOfMemory>
    ensures { OnOk result
        (IsExtended incarnations.old.items incarnations.new.items version.now range) }
{
    if go_on(incarnations, version, range) {
        return Ok(());
    }
    incarnations.push(Incarnation {
        uid: version.uid.clone()?,
        first: version.revision,
        last: version.revision,
        range,
    })?;
    Ok(())
}
