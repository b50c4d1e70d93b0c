//! The program `ccrun` once more, given a text with a fault: it ends with 2, and nothing is on standard output.
#![tactic(auto)]

use cc_command::run_host;
use std::process::ExitCode;

fn main(rt: HostRuntime) -> ExitCode {
    run_host(rt)
}
