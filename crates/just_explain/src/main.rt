// Explains a justfile, which is read from standard input.
#![tactic(auto)]

use anyhow::{Context, Result, ensure};
use just_explainer::command_line::requested;
use just_explainer::explain_request;
use just_explainer::output::Output;
use just_explainer::request::Requested;
use std::alloc::Global;
use std::env;
use std::io::{self, Read};
use std::process::ExitCode;

// The most bytes that a justfile may have.
const LIMIT: u64 = 16_000_000;

// What the words ask for. Standard input is read only if they ask for an explanation.
fn output<R: AllocGlobal + Input>(rt: &R, words: &[String]) -> Result<Output> {
    match requested(rt.alloc(), words)? {
        Requested::Request(request) => {
            let source = source(rt.alloc(), rt.reader())?;
            Ok(explain_request(rt.alloc(), &request, &source)?)
        }
        Requested::Output(output) => Ok(output),
    }
}

// The text of the justfile.
fn source<R: Read + Drop>(alloc: Global, reader: R) -> Result<String> {
    let source = io::read_to_string(alloc, reader.take(LIMIT + 1)).context("reading the justfile")?;
    ensure!(
        source.len() as u64 <= LIMIT,
        "the justfile has more than {LIMIT} bytes"
    );
    Ok(source)
}

fn main(rt: HostRuntime) -> Result<ExitCode> {
    let words: Vec<String> = env::args(&rt)?.collect(rt.alloc())?;
    match output(&rt, &words) {
        Ok(output) => {
            print!(rt; "{}", output.out)?;
            eprint!(rt; "{}", output.err)?;
            Ok(ExitCode::from(output.status))
        }
        Err(error) => {
            eprintln!(rt; "error: {error:#}")?;
            Ok(ExitCode::FAILURE)
        }
    }
}
