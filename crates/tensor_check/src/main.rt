//! Tells on standard output whether a group leaves a tensor unchanged that its words give by numbers, and the symmetry
//! of the tensor.
#![tactic(auto)]

use check_runs::run_check;
use std::process::ExitCode;
use tensor_ports::{StdSink, words_of};

fn main(rt: HostRuntime) -> ExitCode {
    let end = match words_of(&rt) {
        Ok(words) => run_check(rt.alloc(), &words, &mut StdSink::new(rt.stdout())),
        Err(fault) => fault.tool_end(),
    };
    ExitCode::from(end.status())
}
