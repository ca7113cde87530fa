// Reads a case from standard input and prints its answer.
#![tactic(auto)]

use just_bench::program::run;
use std::io;
use std::process::ExitCode;

fn main(rt: HostRuntime) -> ExitCode {
    let mut reader = rt.reader();
    let mut writer = io::writer(&rt);
    ExitCode::from(run(rt.alloc(), &mut reader, &mut writer))
}
