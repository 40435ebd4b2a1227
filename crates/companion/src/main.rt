//! companion explains the codes of kubepast, prepares what it reads, and shows its verdicts.
#![tactic(auto)]

mod ending;
mod law;
mod picturing;
mod process;
mod report;
mod reporting;
mod running;

use crate::process::end_of;
use edge_io::StdSink;
use process_words::words_among;
use std::env;
use std::process::ExitCode;

fn main(rt: HostRuntime) -> ExitCode {
    let words = words_among(rt.alloc(), env::args(&rt));
    end_of(&rt, words, &mut StdSink::new(&rt))
}

#[cfg(test)]
mod tests;
