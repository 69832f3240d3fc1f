//! Answers a limiting group and a Jahn symbol, its two words, on standard output.
#![tactic(auto)]

use curie_runs::run_curie;
use std::process::ExitCode;
use tensor_ports::{StdSink, words_of};

fn main(rt: HostRuntime) -> ExitCode {
    let end = match words_of(&rt) {
        Ok(words) => run_curie(rt.alloc(), &words, &mut StdSink::new(rt.stdout())),
        Err(fault) => fault.tool_end(),
    };
    ExitCode::from(end.status())
}
