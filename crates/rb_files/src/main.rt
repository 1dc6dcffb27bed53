//! `resb` with the commands of rb_bundles, without the other ones.
#![tactic(auto)]

use rb_bundles::Bundles;
use rb_running::run_program;
use std::process::ExitCode;

fn main(rt: HostRuntime) -> ExitCode {
    run_program(rt, &Bundles)
}
