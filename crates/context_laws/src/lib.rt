//! Laws of what a setup and a log tell: how decisions are possible, which class an answer has, when a write's answer is
//! what was asked for, and what the placement of an explained log comes to. Each law is the contract of a function that
//! does nothing, which a caller cites by calling it.
#![tactic(auto)]

mod law;

pub use law::{placement_law, statement_law};
