//! The page that shows an explained log.
#![tactic(auto)]

mod changed;
mod counting;
mod gone;
mod kind;
mod lanes;
mod limits;
mod overview;
mod page;
mod revised;
mod spreading;
mod tables;
mod tallies;

pub use counting::counts_law;
pub use page::{log_page, one_page_law};
pub use spreading::spread_law;
