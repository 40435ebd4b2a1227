//! What a request asks for, as an API server reads it of the verb and the URI (Kubernetes
//! "Authorization", "Review your request attributes").
#![tactic(auto)]

mod attributes;
mod escapes;
mod fault;
mod path;
mod query;
mod request;

pub use attributes::attrs_of;
pub use fault::UriFault;
