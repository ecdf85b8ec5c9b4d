// Text handed on to standard output, and what is said of a read or a write that failed.
ghost use Rattle.std.specs.Prelude.{length};
ghost use Rattle.printing.specs.Handed.{Holds, NextPiece, HandedOn};

use crate::Meters;
use std::fmt::InlineText;
use std::io::Error;

// Hands the next piece of the output on to be written, unless a write has failed. One that fails is reported.
pub fn hand_on(rt: &HostRuntime, text: &[u8], meters: &mut Meters)
    requires { NextPiece meters.old text.now × Holds (length text.now) meters.old }
    ensures { HandedOn meters.old (length text.now) meters.new }
{
    if meters.failed {
        return;
    }
    match rt.write_all(text) {
        Ok(()) => meters.handed += text.len() as u64,
        Err(error) => {
            report(rt, "writing standard output", error);
            meters.failed = true;
        }
    }
}

// Reports in a line on standard error what failed, and why.
pub fn report(rt: &HostRuntime, what: &str, error: Error) {
    let said = InlineText::<128>::of(error);
    let why = words_of(said.as_str());
    let _ = eprintln!(rt; "subsume: {what}: {why}");
}

// The system's words for an error, without the number that std puts behind them.
fn words_of(said: &str) -> &str {
    said.split_once(" (os error ")
        .map_or(said, |(words, _)| words)
}
