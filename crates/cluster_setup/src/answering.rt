ghost use Rattle.std.specs.Prelude.{◌≡◌, ◌≢◌, ◌∷◌, true, IfOk, IsOk, map, string_bytes};
ghost use Rattle.cluster_setup.specs.Answering.{IsMadeText, MakesSetup};
ghost use Rattle.process_words.specs.Names.{are_distinct};
ghost use Rattle.cluster_setup.specs.Telling.{refusal_words};
ghost use Rattle.verdict_text.specs.Words.{ended};

use crate::fault::SetupRefusal;
use crate::gathering::{GivenFiles, read_given};
use crate::making::make_setup;
use crate::telling::{line_of, refusal_words};
use base_types::{Bytes, OutOfMemory};
use edge_io::{Desk, WholeStop};
use std::alloc::Global;

/// What a policy and files come to, as a line.
#[derive(Drop)]
pub enum MadeText {
    /// The setup of them.
    Setup(Bytes),
    /// Why none is made.
    Refused(Bytes),
}

/// Reads a policy and files from a desk, each by its name, and makes a setup of them that begins at this time.
pub fn make_named<D: Desk>(
    alloc: Global,
    desk: &mut D,
    authorize: bool,
    time: &str,
    policy: &str,
    files: &[String],
) -> Result<MadeText, WholeStop>
    requires { are_distinct (policy.now ∷ map string_bytes files.now) ≡ true }
    ensures { MakesSetup authorize time.now policy.now (map string_bytes files.now)
        (D.left desk.old) (D.left desk.new) (D.faults desk.old) (D.faults desk.new) result }
{
    match read_given(alloc, desk, policy, files) {
        Ok(given) => match made_text(alloc, authorize, time, files, &given) {
            Ok(made) => Ok(made),
            Err(OutOfMemory) => Err(WholeStop::OutOfMemory),
        },
        Err(stop) => Err(stop),
    }
}

// The setup, or why none is made.
fn made_text(
    alloc: Global,
    authorize: bool,
    time: &str,
    names: &[String],
    given: &GivenFiles,
) -> Result<MadeText, OutOfMemory>
    ensures { IfOk result (IsMadeText authorize time.now given.now.policy
        (map string_bytes names.now) given.now.files.items) }
{
    let policy = given.policy.as_slice();
    match make_setup(alloc, time, policy, &given.files, authorize) {
        Ok(line) => Ok(MadeText::Setup(Bytes::from_vec(line.into_bytes()))),
        Err(refusal) => {
            let line = refusal_line(alloc, names, refusal)?;
            Ok(MadeText::Refused(line))
        }
    }
}

// Why no setup is made, as a line. Want of memory has no text.
fn refusal_line(
    alloc: Global,
    names: &[String],
    refusal: SetupRefusal,
) -> Result<Bytes, OutOfMemory>
    ensures line { IfOk result (λ line.
        line ≡ ended (refusal_words (map string_bytes names.now) refusal)) }
    ensures memory { IsOk result → refusal ≢ SetupRefusal.OutOfMemory }
{
    let line = line_of(refusal_words(alloc, names, refusal)?)?;
    Ok(Bytes::from_vec(line.into_bytes()))
}
