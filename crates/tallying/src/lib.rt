// The tally sheet: a strike counted, and its lines put into lent bytes (docs/REFERENCE.md, "The program").
#![tactic(auto)]

mod counting;
mod sheet;

pub use counting::count_strike;
pub use sheet::{put_records, put_rows};

// The counters: for each number that a record can have, the strikes of its clause and their candidates.
// Words and no struct of the two: the definitions and claims (`counters_after`, `shown_from`, `WholeInput`) speak of one list of numbers.
#[derive(Drop)]
pub struct Counters {}

impl Counters {
    // The words of all counters.
    pub const WORDS: usize = 0x2_0000;
    // The words of a number.
    const EACH: usize = 2;
}
