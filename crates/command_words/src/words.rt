ghost use Rattle.std.specs.Prelude.{◌≡◌, ◌≢◌, ◌≤◌, ℕ, ◌∷◌, [], IfOk, OnErr, IfSome, IfNone, IsTrue, ◌↔◌, map};
ghost use Rattle.std.specs.Prelude.{string_bytes, codes, decimal};
ghost use Rattle.command_words.specs.Command.{AreNames, IsPlainRead, IsRead, IsThirdName, MayWantMemory, most_made};

use crate::questions::read_asked;
use base_types::OutOfMemory;
use history_query::Question;
use std::alloc::Global;
use verdict_text::read_number;

/// A made case has at most so many events.
const MOST_MADE: u64 = 100_000;

/// What the words of the command line ask for.
#[derive(Drop)]
pub enum Command<'a> {
    /// `judge SETUP LOG`
    Judge {
        setup: &'a str,
        log: &'a str,
    },
    /// `judge --strict SETUP LOG`
    Strict {
        setup: &'a str,
        log: &'a str,
    },
    /// `verify SETUP LOG PLACEMENT`
    Verify {
        setup: &'a str,
        log: &'a str,
        placement: &'a str,
    },
    /// `show`, `versions`, `state`, `blame` or `can`, SETUP LOG, and what is asked
    Ask {
        setup: &'a str,
        log: &'a str,
        question: Question,
    },
    /// `make NUMBER EVENTS`
    Make {
        number: u64,
        events: u32,
    },
}

/// Reads the words behind the program's name: none where they are no command. Memory is taken only where the number of
/// words, the command, the names and the place are those of a question to a history.
pub fn read_words(alloc: Global, words: &[String]) -> Result<Option<Command<'_>>, OutOfMemory>
    ensures read { IfOk result (IsRead (map string_bytes words.now)) }
    ensures memory { OnErr result (MayWantMemory (map string_bytes words.now)) }
{
    match read_plain(words) {
        Some(command) => Ok(Some(command)),
        None => read_asked(alloc, words),
    }
}

// Reads the words of a command that asks no question of a history.
fn read_plain(words: &[String]) -> Option<Command<'_>>
    ensures { IsPlainRead (map string_bytes words.now) result }
{
    match words {
        [verb, first, second] => read_three(verb, first, second),
        [verb, first, second, third] => read_four(verb, first, second, third),
        _ => None,
    }
}

fn read_three<'a>(verb: &str, first: &'a str, second: &'a str) -> Option<Command<'a>>
    ensures { IsPlainRead (verb.now ∷ first.entry.now ∷ second.entry.now ∷ []) result }
{
    if verb == "judge" {
        return judge_words(first, second);
    }
    if verb == "make" {
        return make_words(first, second);
    }
    None
}

fn read_four<'a>(verb: &str, first: &'a str, second: &'a str, third: &'a str) -> Option<Command<'a>>
    ensures { IsPlainRead (verb.now ∷ first.entry.now ∷ second.entry.now ∷ third.entry.now ∷ [])
        result }
{
    if verb == "verify" {
        return verify_words(first, second, third);
    }
    if is_strict(verb, first) {
        return strict_words(second, third);
    }
    None
}

fn is_strict(verb: &str, mode: &str) -> bool
    ensures { IsTrue result ↔ ((verb.now ≡ codes "judge") × (mode.now ≡ codes "--strict")) }
{
    verb == "judge" && mode == "--strict"
}

fn judge_words<'a>(setup: &'a str, log: &'a str) -> Option<Command<'a>>
    ensures { IsPlainRead (codes "judge" ∷ setup.entry.now ∷ log.entry.now ∷ []) result }
{
    if are_names(setup, log) {
        return Some(Command::Judge { setup, log });
    }
    None
}

fn strict_words<'a>(setup: &'a str, log: &'a str) -> Option<Command<'a>>
    ensures { IsPlainRead (codes "judge" ∷ codes "--strict" ∷ setup.entry.now ∷ log.entry.now ∷ [])
        result }
{
    if are_names(setup, log) {
        return Some(Command::Strict { setup, log });
    }
    None
}

fn verify_words<'a>(setup: &'a str, log: &'a str, placement: &'a str) -> Option<Command<'a>>
    ensures { IsPlainRead (codes "verify" ∷ setup.entry.now ∷ log.entry.now ∷ placement.entry.now
        ∷ []) result }
{
    if are_names(setup, log) && is_third_name(setup, log, placement) {
        return Some(Command::Verify {
            setup,
            log,
            placement,
        });
    }
    None
}

pub(crate) fn are_names(setup: &str, log: &str) -> bool
    ensures { IsTrue result ↔ AreNames setup.now log.now }
{
    setup != log && setup != "-"
}

fn is_third_name(setup: &str, log: &str, placement: &str) -> bool
    ensures { IsTrue result ↔ IsThirdName setup.now log.now placement.now }
{
    placement != setup && placement != log && placement != "-"
}

fn make_words<'a>(number: &str, events: &str) -> Option<Command<'a>>
    ensures { IsPlainRead (codes "make" ∷ number.now ∷ events.now ∷ []) result }
{
    match (read_number(number), read_made(events)) {
        (Some(number), Some(events)) => Some(Command::Make { number, events }),
        _ => None,
    }
}

// How many events a case shall have.
fn read_made(events: &str) -> Option<u32>
    ensures some { IfSome result (λ made. (events.now ≡ decimal made) × (made ≤ most_made)) }
    ensures none { IfNone result ((made : ℕ) → made ≤ most_made → events.now ≢ decimal made) }
{
    let made = read_number(events)?;
    if made > MOST_MADE {
        return None;
    }
    Some(made as u32)
}
