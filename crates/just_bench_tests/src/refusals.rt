// Refusals that no case meets, as printed.

use crate::texts::same;
use just_bench::print::print_refusal;
use just_case_reader::token::{name, token};
use just_value::const_error::ConstError;
use just_value::error::Error;
use std::alloc::Global;
use std::process::Abort;

// A refusal is printed like this.
fn prints(rt: &impl Abort, alloc: Global, refusal: Error, wanted: &str) {
    let mut text = String::new(alloc);
    print_refusal(alloc, &mut text, &refusal).expect(rt, "no memory");
    drop(refusal);
    same(rt, wanted, &text, wanted);
}

#[test]
fn refusals_of_no_case(rt: HostRuntime) {
    // Nothing is printed for what is not allowed before any run.
    let command = ConstError::Backtick(token("`c`"));
    for refusal in [
        command,
        ConstError::FunctionCall(name("f")),
        ConstError::Variable(name("v")),
    ] {
        prints(&rt, rt.alloc(), Error::Const(refusal), "refused 3 Const\n");
    }
    let parameter = "p";
    let recipe = "build";
    let refusal = Error::EmptyListArgument { parameter, recipe };
    prints(
        &rt,
        rt.alloc(),
        refusal,
        "refused 4 EmptyListArgument p build\n",
    );
    let message = String::from_str(rt.alloc(), "no\t\"number\"").expect(&rt, "no memory");
    let refusal = Error::Check { parameter, message };
    prints(
        &rt,
        rt.alloc(),
        refusal,
        "refused 13 Check \"no\\t\\\"number\\\"\"\n",
    );
}
