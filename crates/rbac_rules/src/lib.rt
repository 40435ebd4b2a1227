//! Roles and bindings: what they are, which requests a rule grants, and whom a subject means
//! (Kubernetes "Using RBAC Authorization").
#![tactic(auto)]

mod binding;
mod granting;
mod reading;
mod role;
mod subjects;

pub use binding::{Binding, Subject, Subjects};
pub use granting::grants;
pub use reading::{RbacFault, read_binding, read_role};
pub use role::{PolicyRule, PolicyRules};
pub use subjects::subject_matches;
