// One word of a row on the lent cells.
#![tactic(auto)]

mod step;

pub use step::{meet, meet_top, operand};

// What a node comes to: to go on past it, nothing more (it is broken), to end with its number, to try the candidates, to go on below it at a head, to go on
// below it at a head after a store, with the undo that brings back the cell.
#[derive(Clone, Copy)]
pub enum Visit {
    Fails,
    Stuck,
    Hit,
    Tries,
    Below(usize),
    Stored(usize, u64),
}
