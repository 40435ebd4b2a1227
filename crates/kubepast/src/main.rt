//! kubepast judges whether a Kubernetes audit log can be true.
#![tactic(auto)]

mod law;
mod made;
mod process;
mod reporting;
mod run;
mod summary;

use crate::process::end_of;
use edge_io::StdSink;
use process_words::words_among;
use std::env;
use std::process::ExitCode;

fn main(rt: HostRuntime) -> ExitCode {
    let words = words_among(rt.alloc(), env::args(&rt));
    end_of(&rt, words, &mut StdSink::new(&rt))
}

#[cfg(test)]
mod tests;
