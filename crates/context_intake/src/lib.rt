//! A setup and a log from a desk, and what they tell together: a context, or why there is none.
#![tactic(auto)]

mod chained;
mod law;
mod reading;
mod refusal;
mod stop;
mod told;

pub use law::one_context_law;
pub use reading::read_context;
pub use refusal::{Limit, Refusal};
pub use stop::Stop;
pub use told::Intake;
