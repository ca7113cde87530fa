// The frames of a scope, innermost first.

use crate::compared::reports;
use crate::scope::{bind, walk};
use just_value::frames::Frames;
use just_value::scope::Scope;
use std::alloc::Global;
use std::fmt::Debug;
use std::process::Abort;

// The frames of a root; of its child, which binds one number again; and of the child of that, which binds nothing.
const FRAMES: &str =
    "(x=outer;)\n(own=middle;x=middle;)(x=outer;)\n()(own=middle;x=middle;)(x=outer;)\n";

// What `Debug` writes for the frames of the second scope, and for those after its own.
const WRITTEN: &str =
    "[{\"own\": Value { elements: [\"middle\"] }, \"x\": Value { elements: [\"middle\"] }}, \
    {\"x\": Value { elements: [\"outer\"] }}] [{\"x\": Value { elements: [\"outer\"] }}]";

#[test]
fn frames_of_nested_scopes(rt: HostRuntime) {
    let alloc = rt.alloc();
    let mut root = Scope::root(alloc, &[]).expect(&rt, "no memory");
    bind(&mut root, &rt, alloc, "x", 4, "outer");
    let mut reported = String::new(alloc);
    report_frames(root.frames(), &rt, alloc, &mut reported);
    report_child(&root, &rt, alloc, &mut reported);
    drop(root);
    reports(&rt, reported, FRAMES);
}

fn report_child(root: &Scope, rt: &impl Abort, alloc: Global, reported: &mut String) {
    let mut child = root.child(alloc).expect(rt, "no memory");
    bind(&mut child, rt, alloc, "x", 4, "middle");
    bind(&mut child, rt, alloc, "own", 2, "middle");
    report_frames(child.frames(), rt, alloc, reported);
    report_empty(&child, rt, alloc, reported);
    reports(rt, written(rt, alloc, child.frames()), WRITTEN);
    drop(child);
}

fn report_empty(middle: &Scope, rt: &impl Abort, alloc: Global, reported: &mut String) {
    let empty = middle.child(alloc).expect(rt, "no memory");
    report_frames(empty.frames(), rt, alloc, reported);
    drop(empty);
}

// Adds the bindings of each frame, in parentheses.
fn report_frames(frames: Frames, rt: &impl Abort, alloc: Global, reported: &mut String) {
    for frame in frames {
        reported.push('(').expect(rt, "no memory");
        walk(frame.bindings(), rt, alloc, reported);
        reported.push(')').expect(rt, "no memory");
    }
    reported.push('\n').expect(rt, "no memory");
}

// What `Debug` writes for frames, and for those after the first one.
fn written(rt: &impl Abort, alloc: Global, frames: Frames) -> String {
    let mut rest = frames.clone().expect(rt, "no memory");
    let first = rest.next().is_some();
    assert!(rt; first, "a frame");
    let mut written = shown(rt, alloc, frames);
    written.push(' ').expect(rt, "no memory");
    written
        .push_str(&shown(rt, alloc, rest))
        .expect(rt, "no memory");
    written
}

// What `Debug` writes for an item.
fn shown<T: Debug + Drop>(rt: &impl Abort, alloc: Global, item: T) -> String {
    format!(in alloc; "{item:?}").expect(rt, "no memory")
}
