//! The program once more, for a stored run that is done: the one of `onll_main` is refused.
#![tactic(auto)]

use std::process::ExitCode;

fn main(rt: HostRuntime) -> ExitCode {
    onll_program::run(&rt)
}
