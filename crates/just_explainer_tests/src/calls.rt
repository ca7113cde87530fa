// Whole calls, and what they write.

use just_explainer::explain;
use just_explainer::output::Output;
use just_syntax::out_of_memory::OutOfMemory;
use std::alloc::Global;
use std::process::Abort;

/// The words after the name of the program, separated by `|`; a justfile; what is written to standard output, and what
/// to standard error; and the exit status.
pub(crate) type Call = (&'static str, &'static str, &'static str, &'static str, u8);

/// A justfile that has each kind of item.
pub(crate) const BUILD: &str = "\
set shell := ['sh', flag]
export flag := '-cu'
mode := env('MODE', 'debug')
commit := `git rev-parse HEAD`
target := under('out')
under(directory) := directory / mode
alias b := build
clean:
build name output=(target / name) *flags: clean && (install output)
    @cc {{flags}} \\
       -o {{output}} {{name}}.c
    echo {{commit}}
install path:
    cp {{path}} /usr/bin
";

// What a call writes.
fn explained(alloc: Global, words: &str, source: &str) -> Result<Output, OutOfMemory> {
    let mut all = Vec::new(alloc);
    all.push("just_explain")?;
    for word in words.split('|') {
        all.push(word)?;
    }
    explain(alloc, &all, source)
}

/// Tries calls.
pub(crate) fn try_calls(rt: &impl Abort, alloc: Global, calls: &[Call]) {
    for (words, source, out, err, status) in calls {
        let output = explained(alloc, words, source).expect(rt, "no memory");
        assert_eq!(rt; output.out.as_str(), *out, "of {words}");
        assert_eq!(rt; output.err.as_str(), *err, "of {words}");
        assert_eq!(rt; output.status, *status, "of {words}");
    }
}
