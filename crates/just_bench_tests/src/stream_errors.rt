// The messages of stream errors.

use crate::texts::same;
use just_bench::stream::StreamError;
use std::alloc::Global;
use std::process::Abort;

// An error has this message, with format options too.
fn says(rt: &impl Abort, alloc: Global, error: StreamError, text: &str) {
    let reported = format!(in alloc; "{error:>40}").expect(rt, "no memory");
    same(rt, "error", &reported, text);
    drop(reported);
    drop(error);
}

#[test]
fn errors_of_streams_say(rt: HostRuntime) {
    let alloc = rt.alloc();
    says(&rt, alloc, StreamError::Failed, "read or write failed");
    says(&rt, alloc, StreamError::OutOfMemory, "out of memory");
    let text = "case has more than 1000000 bytes";
    says(&rt, alloc, StreamError::TooLong, text);
}
