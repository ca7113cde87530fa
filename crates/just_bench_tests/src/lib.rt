// Tests of what no stored case can express: a case that is cut, streams that fail, hosts, evaluations in a scope with
// bindings, how deep forms and calls may nest, and what an edit of a module changes. They test the crates up to
// `just_bench`, and `just_changes`.
#![tactic(auto)]

#[cfg(test)]
mod blocks;
#[cfg(test)]
mod case_run;
#[cfg(test)]
mod depth;
#[cfg(test)]
mod edits;
#[cfg(test)]
mod evaluations;
#[cfg(test)]
mod failing;
#[cfg(test)]
mod frame_host;
#[cfg(test)]
mod functions;
#[cfg(test)]
mod hosts;
#[cfg(test)]
mod orders;
#[cfg(test)]
mod refusals;
#[cfg(test)]
mod stored_case;
#[cfg(test)]
mod stream_errors;
#[cfg(test)]
mod streams;
#[cfg(test)]
mod texts;
