//! `resb serve`, without the other commands.
#![tactic(auto)]

use rb_running::run_program;
use rb_serving::Serving;
use std::process::ExitCode;

fn main(rt: HostRuntime) -> ExitCode {
    run_program(rt, &Serving)
}
