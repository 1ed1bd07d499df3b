// Reads one job from standard input and prints its exact sums, or its refusal, on standard output. Where
// either cannot be done, a line on standard error says so and why.
#![tactic(auto)]

use std::fmt::InlineText;
use std::io::{Eprint, Error, Result};

// An error's text without the system's number for it.
fn words(text: &str) -> &str {
    text.split_once(" (os error ")
        .map_or(text, |(words, _)| words)
}

// Writes to standard error what cannot be done, and why.
fn fail(rt: &impl Eprint, what: &str, error: Error) -> Result<()> {
    let text = InlineText::<300>::of(error);
    let why = words(text.as_str());
    eprintln!(rt; "boresums: cannot {what}: {why}")
}

fn main(rt: HostRuntime) {
    let mut bytes = [0u8; 65537];
    let input = stdio::read_all(&mut rt.stdin(), &mut bytes);
    if let Some(error) = input.error {
        let _ = fail(&rt, "read standard input", error);
        return;
    }
    let printed = console::print_report(&mut rt.stdout(), &bytes[..input.count]);
    if let Some(error) = printed.error {
        let _ = fail(&rt, "write standard output", error);
    }
}
