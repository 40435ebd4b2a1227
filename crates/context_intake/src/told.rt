use crate::refusal::Refusal;
use log_context::Context;

/// What a setup and a log tell.
#[derive(Drop)]
pub enum Intake {
    /// Nothing, for what their bytes are.
    Refused(Refusal),
    Context(Context),
}
