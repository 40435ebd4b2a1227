ghost use Rattle.std.specs.Prelude.{◌≡◌, codes};
ghost use Rattle.base_types.specs.Parts.{member_of};
ghost use Rattle.setup_file.specs.Clocks.{time_of, start_of, until_of, nanos_within, nanos_of};
ghost use Rattle.setup_file.specs.Reading.{chained, clocks_of};

use crate::fault::SetupRule;
use crate::form::is_form;
use base_types::{Moment, Revision};
use packed_tree::PackedRef;
use timestamps::read_moment;

/// Where and when a log begins and ends, and by how much times may be off.
#[derive(Clone, Copy)]
pub struct Clocks {
    pub start: Revision,
    pub start_time: Moment,
    pub until: Option<Moment>,
    pub slack: u64,
    pub lag: u64,
}

/// Where and when a log begins.
#[derive(Clone, Copy)]
pub struct Start {
    pub revision: Revision,
    pub time: Moment,
}

/// The most nanoseconds by which clocks and caches may be off.
const MOST_NANOS: i128 = 1_000_000_000_000_000_000;

fn time_of(value: &PackedRef<'_>) -> Option<Moment>
    ensures { result ≡ time_of value.now }
{
    read_moment(value.as_text()?)
}

fn start_of(value: &PackedRef<'_>) -> Option<Start>
    ensures { result ≡ start_of value.now }
{
    if !is_form(&["revision", "time"], value) {
        return None;
    }
    let revision = value.revision_at("revision")?;
    let member = value.member("time")?;
    let time = time_of(&member)?;
    Some(Start { revision, time })
}

fn start_at(value: &PackedRef<'_>) -> Option<Start>
    ensures { result ≡ chained (member_of (codes "start") value.now) start_of }
{
    let member = value.member("start")?;
    start_of(&member)
}

fn until_of(start: Moment, member: Option<PackedRef<'_>>) -> Option<Option<Moment>>
    ensures { result ≡ until_of start member.entry }
{
    let Some(member) = member else {
        return Some(None);
    };
    let until = time_of(&member)?;
    if until.0 < start.0 {
        return None;
    }
    Some(Some(until))
}

fn nanos_within(number: i128) -> Option<u64>
    ensures { result ≡ nanos_within number }
{
    if number < 0 || number > MOST_NANOS {
        return None;
    }
    Some(number as u64)
}

fn nanos_of(member: Option<PackedRef<'_>>) -> Option<u64>
    ensures { result ≡ nanos_of member.entry }
{
    match member {
        Some(value) => nanos_within(value.as_whole()?),
        None => Some(0),
    }
}

/// The start, the end and the clocks of a setup.
pub fn read_clocks(value: &PackedRef<'_>) -> Result<Clocks, SetupRule>
    ensures { result ≡ clocks_of value.now }
{
    let start = start_at(value).ok_or(SetupRule::S4)?;
    let until = until_of(start.time, value.member("until")).ok_or(SetupRule::S5)?;
    let slack = nanos_of(value.member("slackNanos")).ok_or(SetupRule::S6)?;
    let lag = nanos_of(value.member("lagNanos")).ok_or(SetupRule::S6)?;
    Ok(Clocks {
        start: start.revision,
        start_time: start.time,
        until,
        slack,
        lag,
    })
}
