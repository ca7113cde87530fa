// Runs the stored cases. Reports each case whose answer differs from its file, each run that contradicts what is
// constant before it or asks outside of its reach, and each that binds something else in the order by names.
#![tactic(auto)]

#[cfg(test)]
mod tests;

use just_judge::check::check_cases;
use std::process::ExitCode;

fn main(rt: HostRuntime) -> ExitCode {
    ExitCode::from(check_cases(&rt))
}
