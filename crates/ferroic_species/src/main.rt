//! Answers a group and a subgroup, its two words, on standard output.
#![tactic(auto)]

use species_runs::run_species;
use std::process::ExitCode;
use tensor_ports::{StdSink, words_of};

fn main(rt: HostRuntime) -> ExitCode {
    let end = match words_of(&rt) {
        Ok(words) => run_species(rt.alloc(), &words, &mut StdSink::new(rt.stdout())),
        Err(fault) => fault.tool_end(),
    };
    ExitCode::from(end.status())
}
