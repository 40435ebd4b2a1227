use crate::given::{text, user};
use base_types::User;
use rbac_rules::{Subject, subject_matches};
use std::process::Abort;

// The namespace and the name of a service account, a user name, and whether it is the account's.
static ACCOUNTS: [(&str, &str, &str, bool); 9] = [
    ("d", "robot", "system:serviceaccount:d:robot", true),
    ("d", "robot", "system:serviceaccount:e:robot", false),
    ("d", "robot", "system:serviceaccount:d:robots", false),
    ("d", "robot", "system:serviceaccount:drobot", false),
    ("d", "robot", "system:serviceaccounts:d:robot", false),
    ("d", "robot", "d:robot", false),
    ("d", "robot", "robot", false),
    ("d", "", "system:serviceaccount:d:", true),
    ("", "robot", "system:serviceaccount::robot", false),
];

// The subject is the user's.
fn is_whose(subject: Subject, user: &User) -> bool {
    let matches = subject_matches(&subject, user);
    drop(subject);
    matches
}

fn is_user_of(rt: &(impl Abort + AllocGlobal), name: &str, user: &User) -> bool {
    is_whose(Subject::User(text(rt, name)), user)
}

fn is_group_of(rt: &(impl Abort + AllocGlobal), name: &str, user: &User) -> bool {
    is_whose(Subject::Group(text(rt, name)), user)
}

fn is_account_of(
    rt: &(impl Abort + AllocGlobal),
    namespace: &str,
    name: &str,
    whose: &str,
) -> bool {
    let account = Subject::ServiceAccount {
        namespace: text(rt, namespace),
        name: text(rt, name),
    };
    let user = user(rt, whose, &["dev", "ops"]);
    let is_theirs = is_whose(account, &user);
    drop(user);
    is_theirs
}

#[test]
fn subjects_and_users(rt: HostRuntime) {
    let ann = user(&rt, "ann", &["dev", "ops"]);
    assert!(rt; is_user_of(&rt, "ann", &ann));
    assert!(rt; !is_user_of(&rt, "ops", &ann));
    assert!(rt; !is_user_of(&rt, "*", &ann));
    assert!(rt; is_group_of(&rt, "ops", &ann));
    assert!(rt; !is_group_of(&rt, "ann", &ann));
    drop(ann);
    for (namespace, name, whose, is_theirs) in &ACCOUNTS {
        assert_eq!(rt; is_account_of(&rt, namespace, name, whose), *is_theirs);
    }
}
