//! `resb`: compiles bundle texts, checks files, prints their items, and serves lookups.
#![tactic(auto)]

mod running;

use crate::running::All;
use rb_running::run_program;
use std::process::ExitCode;

fn main(rt: HostRuntime) -> ExitCode {
    run_program(rt, &All)
}
