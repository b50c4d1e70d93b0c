//! The program `ccrun`.
#![tactic(auto)]

use cc_command::run_host;
use std::process::ExitCode;

fn main(rt: HostRuntime) -> ExitCode {
    run_host(rt)
}
