ghost use Rattle.std.specs.Prelude.{◌≡◌};
ghost use Rattle.log_context.specs.LogLevels.{is_level, has_stage};

use base_types::{Level, PolicyLevel, Stage, StageSet};

/// Whether a policy's level is the one of an event.
pub fn is_level(set: PolicyLevel, level: Level) -> bool
    ensures { result ≡ is_level set level }
{
    match set {
        PolicyLevel::NoLevel => false,
        PolicyLevel::Set(Level::Metadata) => matches!(level, Level::Metadata),
        PolicyLevel::Set(Level::Request) => matches!(level, Level::Request),
        PolicyLevel::Set(Level::RequestResponse) => matches!(level, Level::RequestResponse),
    }
}

pub fn has_stage(stages: StageSet, stage: Stage) -> bool
    ensures { result ≡ has_stage stages stage }
{
    match stage {
        Stage::Received => stages.received,
        Stage::Started => stages.started,
        Stage::Complete => stages.complete,
        Stage::Panic => stages.panic,
    }
}
