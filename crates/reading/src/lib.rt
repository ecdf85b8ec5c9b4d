// The reading of a clause by a cursor: its literals one after another (docs/REFERENCE.md, "Clause words").
#![tactic(auto)]

mod moves;
mod whole;
mod word;

ghost use Rattle.std.specs.Prelude.{◌≡◌};
ghost use Rattle.clause.specs.Clause.{scan, shape};

use clause::{Clause, Fault};
pub use whole::is_whole;
use word::is_head;

// A position in a clause, and how many right siblings the term there has.
#[derive(Clone, Copy)]
pub struct Cursor {
    pub at: usize,
    pub left: usize,
}

// How many literals the clause has that the words are, or its first fault.
pub fn read(words: &[u16]) -> Result<usize, Fault>
    ensures { result ≡ shape words.now }
{
    if words.is_empty() || words.len() > Clause::WORDS {
        return Err(Fault::BadLength);
    }
    literals(words)
}

// The literals one after another: a head, down to its first argument, past each argument and right to the next one.
fn literals(words: &[u16]) -> Result<usize, Fault>
    ensures { result ≡ scan words.now 0 0 0 }
{
    let mut at = 0;
    let mut count = 0;
    let mut argument: Option<Cursor> = None;
    loop {
        if let Some(here) = argument {
            let passed = here.past(words);
            let Ok(next) = passed else {
                return Err(Fault::Bad(passed.unwrap_err()));
            };
            at = next.at;
            argument = here.right(at);
        } else {
            if at >= words.len() {
                return Ok(count);
            }
            if !is_head(words[at]) {
                return Err(Fault::Bad(at));
            }
            if count >= Clause::LITERALS {
                return Err(Fault::Ninth(at));
            }
            argument = Cursor::head(at).down(words);
            at += 1;
            count += 1;
        }
    }
}
