//! Which decisions an authorizer could have given at each place of a history, by the roles and bindings
//! that its four caches may have held (Kubernetes "Using RBAC Authorization").
#![tactic(auto)]

mod begun;
mod deciding;
mod extent;
mod first;
mod free_bindings;
mod history;
mod index;
mod kind;
mod lasting;
mod lookups;
mod named;
mod nameless;
mod pairs;
mod parts;
mod reign_index;
mod reigns;
mod search;
mod timeline;
mod unsure;
mod version;
mod way;

pub use deciding::deciding_law;
pub use kind::{Kind, kind_of_key};
pub use timeline::Timeline;
pub use version::{RbacContent, RbacEnd, RbacEnds, RbacVersion, RbacVersions};
