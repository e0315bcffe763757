//! The editor as a program: it reads the file that its words name, answers the script on standard input, writes the
//! replies to standard output and ends with the status of the run. It writes nothing to standard error.
#![tactic(auto)]

use oriedita_cli::program;
use std::process::ExitCode;

fn main(rt: HostRuntime) -> ExitCode {
    program(&rt)
}
