//! Turns the name of a group symbol from one dialect into another: the words are `short`, `long` or `schoenflies`, and
//! the symbol.
#![tactic(auto)]

use dialect_runs::run_dialect;
use std::process::ExitCode;
use tensor_ports::{StdSink, words_of};

fn main(rt: HostRuntime) -> ExitCode {
    let end = match words_of(&rt) {
        Ok(words) => run_dialect(rt.alloc(), &words, &mut StdSink::new(rt.stdout())),
        Err(fault) => fault.tool_end(),
    };
    ExitCode::from(end.status())
}
