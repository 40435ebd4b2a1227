//! Audit policies: what a policy is, and which level and stages it gives a request (Kubernetes
//! "Auditing", "Audit policy").
#![tactic(auto)]

mod level;
mod matching;
mod policy;
mod reading;

pub use level::level_of;
pub use policy::{AuditRule, AuditRules, GroupResources, GroupResourcesList, Policy, PolicyFault};
pub use reading::read_policy;
