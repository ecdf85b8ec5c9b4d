// The program's input taken block by block: each record is asked, answered and printed (docs/REFERENCE.md, "The program").
#![tactic(auto)]

use intake::Session;

mod feeding;

pub use feeding::feed;

// A session after some more of the input, and the place in the output after what was printed.
#[derive(Drop)]
pub struct Turn {
    pub session: Session,
    pub next: usize,
}
