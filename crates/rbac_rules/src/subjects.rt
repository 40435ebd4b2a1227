ghost use Rattle.std.specs.Prelude.{◌↔◌, IsTrue};
ghost use Rattle.rbac_rules.specs.Matching.{IsAccount, IsJoined, Matches};

use crate::binding::Subject;
use base_types::{User, has_text};

// Whether the text is `NAMESPACE:NAME`.
fn is_joined(text: &str, namespace: &str, name: &str) -> bool
    ensures { IsTrue result ↔ IsJoined text.now namespace.now name.now }
{
    let Some(rest) = text.strip_prefix(namespace) else {
        return false;
    };
    match rest.strip_prefix(':') {
        Some(behind) => behind == name,
        None => false,
    }
}

// Whether the user name is that of a service account.
fn is_account(user: &str, namespace: &str, name: &str) -> bool
    ensures { IsTrue result ↔ IsAccount user.now namespace.now name.now }
{
    match user.strip_prefix("system:serviceaccount:") {
        Some(rest) => is_joined(rest, namespace, name),
        None => false,
    }
}

/// Whether a user is one of those whom a subject means (Kubernetes "Using RBAC Authorization",
/// "Referring to subjects").
pub fn subject_matches(subject: &Subject, who: &User) -> bool
    ensures { IsTrue result ↔ Matches subject.now who.now }
{
    match subject {
        Subject::User(name) => who.name == *name,
        Subject::Group(name) => has_text(&who.groups, name),
        Subject::ServiceAccount { namespace, name } => {
            !namespace.is_empty()
                && is_account(who.name.as_str(), namespace.as_str(), name.as_str())
        }
    }
}
