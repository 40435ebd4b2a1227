ghost use Rattle.std.specs.Prelude.{◌≡◌, ◌∷◌, [], true, map, string_bytes, codes};
ghost use Rattle.companion_words.specs.Command.{IsRead, IsSetupRead};

use code_guide::explain;
use process_words::{are_distinct, is_among};
use std::alloc::Global;

/// What the words of the command line ask for.
#[derive(Drop)]
pub enum Command<'a> {
    /// `explain CODE`, and the text of the code
    Explain {
        text: &'static str,
    },
    /// `sift LOG`, or `sift --left LOG`
    Sift {
        left: bool,
        log: &'a str,
    },
    /// `setup TIME POLICY FILE...`, or `setup --authorize TIME POLICY FILE...`
    Setup {
        authorize: bool,
        time: &'a str,
        policy: &'a str,
        files: &'a [String],
    },
    /// `picture SETUP LOG`
    Picture {
        setup: &'a str,
        log: &'a str,
    },
}

/// Reads the words behind the program's name: none where they are no command.
pub fn read_words(alloc: Global, words: &[String]) -> Option<Command<'_>>
    ensures { IsRead (map string_bytes words.now) result }
{
    match words {
        [verb, rest @ ..] => read_verb(alloc, verb, rest),
        _ => None,
    }
}

fn read_verb<'a>(alloc: Global, verb: &str, rest: &'a [String]) -> Option<Command<'a>>
    ensures { IsRead (verb.now ∷ map string_bytes rest.entry.now) result }
{
    if verb == "explain" {
        return explain_words(rest);
    }
    if verb == "sift" {
        return sift_words(rest);
    }
    if verb == "setup" {
        return setup_words(alloc, rest);
    }
    if verb == "picture" {
        return picture_words(rest);
    }
    None
}

fn explain_words<'a>(code: &'a [String]) -> Option<Command<'a>>
    ensures { IsRead (codes "explain" ∷ map string_bytes code.entry.now) result }
{
    match explain(code) {
        Some(text) => Some(Command::Explain { text }),
        None => None,
    }
}

fn sift_words<'a>(rest: &'a [String]) -> Option<Command<'a>>
    ensures { IsRead (codes "sift" ∷ map string_bytes rest.entry.now) result }
{
    match rest {
        [log] => Some(Command::Sift { left: false, log }),
        [mode, log] => left_words(mode, log),
        _ => None,
    }
}

fn left_words<'a>(mode: &str, log: &'a str) -> Option<Command<'a>>
    ensures { IsRead (codes "sift" ∷ mode.now ∷ log.entry.now ∷ []) result }
{
    if mode == "--left" {
        return Some(Command::Sift { left: true, log });
    }
    None
}

fn setup_words<'a>(alloc: Global, rest: &'a [String]) -> Option<Command<'a>>
    ensures { IsRead (codes "setup" ∷ map string_bytes rest.entry.now) result }
{
    match rest {
        [first, second, others @ ..] => mode_words(alloc, first, second, others),
        _ => None,
    }
}

fn mode_words<'a>(
    alloc: Global,
    first: &'a str,
    second: &'a str,
    others: &'a [String],
) -> Option<Command<'a>>
    ensures { IsRead (codes "setup" ∷ first.entry.now ∷ second.entry.now
        ∷ map string_bytes others.entry.now) result }
{
    if first == "--authorize" {
        return authorized_words(alloc, second, others);
    }
    named_words(alloc, false, first, second, others)
}

fn authorized_words<'a>(alloc: Global, time: &'a str, others: &'a [String]) -> Option<Command<'a>>
    ensures { IsSetupRead true (time.entry.now ∷ map string_bytes others.entry.now) result }
{
    match others {
        [policy, files @ ..] => named_words(alloc, true, time, policy, files),
        [] => None,
    }
}

fn named_words<'a>(
    alloc: Global,
    authorize: bool,
    time: &'a str,
    policy: &'a str,
    files: &'a [String],
) -> Option<Command<'a>>
    ensures { IsSetupRead authorize (time.entry.now ∷ policy.entry.now
        ∷ map string_bytes files.entry.now) result }
{
    if time == "--authorize" {
        return None;
    }
    if files.is_empty() {
        return None;
    }
    if is_among(policy, files) {
        return None;
    }
    if !are_distinct(alloc, files) {
        return None;
    }
    Some(Command::Setup {
        authorize,
        time,
        policy,
        files,
    })
}

fn picture_words<'a>(rest: &'a [String]) -> Option<Command<'a>>
    ensures { IsRead (codes "picture" ∷ map string_bytes rest.entry.now) result }
{
    match rest {
        [setup, log] => pictured_words(setup, log),
        _ => None,
    }
}

fn pictured_words<'a>(setup: &'a str, log: &'a str) -> Option<Command<'a>>
    ensures { IsRead (codes "picture" ∷ setup.entry.now ∷ log.entry.now ∷ []) result }
{
    if setup == log {
        return None;
    }
    if setup == "-" {
        return None;
    }
    Some(Command::Picture { setup, log })
}
