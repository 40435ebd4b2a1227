ghost use Rattle.std.specs.Prelude.{◌≡◌, ◌≤◌, drop, length, map};
ghost use Rattle.finding_picture.specs.Lasting.{is_upto, since};

use object_past::Version;

fn is_upto(place: u64, version: &Version) -> bool
    ensures { result ≡ is_upto place version.now }
{
    version.revision.get() <= place
}

/// The versions of an object without those that another one at or below a place follows.
pub fn since<'a>(place: u64, versions: &'a [&'a Version]) -> &'a [&'a Version]
    ensures { map (λ v. v.now) result.now ≡ since place (map (λ v. v.now) versions.now) }
{
    let first = first_since(place, versions);
    &versions[first..]
}

fn first_since(place: u64, versions: &[&Version]) -> usize
    ensures bound { result ≤ length versions.now }
    ensures rest { since place (map (λ v. v.now) versions.now)
        ≡ drop result (map (λ v. v.now) versions.now) }
{
    let mut first = 0;
    for (index, version) in versions.iter().enumerate() {
        if is_upto(place, version) {
            first = index;
        }
    }
    first
}
