//! The function `main` of the program `kds`. It calls `run_here` with the host runtime.
#![tactic(auto)]

use kds_cli_runs::run_here;
use std::process::ExitCode;

fn main(rt: HostRuntime) -> ExitCode {
    run_here(rt, &rt)
}
