ghost use Rattle.std.specs.Prelude.{◌≡◌, ◌<◌, ◌≤◌, IfSome, IfNone, All, Contains};
ghost use Rattle.object_past.specs.Indexed.{ByRevision};

/// A version found by its key.
#[derive(Clone, Copy, PartialEq, Eq)]
pub struct Entry {
    pub revision: u64,
    /// The position of the version.
    pub position: u32,
}

/// The last entry at or below a place.
pub fn entry_upto(entries: &[Entry], place: u64) -> Option<Entry>
    requires { ByRevision entries.now }
    ensures some { IfSome result (Contains entries.now) }
    ensures upto { IfSome result (λ entry. entry.revision ≤ place) }
    ensures last { IfSome result (λ entry. All (λ other. other.revision ≤ place
        → other.revision ≤ entry.revision) entries.now) }
    ensures none { IfNone result (All (λ entry. place < entry.revision) entries.now) }
{
    let upto = entries.partition_point(|entry| entry.revision <= place);
    if upto == 0 {
        return None;
    }
    Some(entries[upto - 1])
}
