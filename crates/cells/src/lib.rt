// The state of the walk's path in lent cells, and the words of a row that are passed over.
#![tactic(auto)]

mod row;
mod state;

use clause::Clause;
use machine::Sequence;
pub use row::{skip, wanted};
pub use state::{begin, in_use, passes, release, reserve, restore, trace, unwind};

// What words stand below: a First, so that they are walked from each of its candidates, or a step, so that they are walked once.
#[derive(Clone, Copy)]
pub enum Above {
    First,
    Step,
}

// A path's state in lent cells: the candidates first, then the positions put, the positions pushed, and how many candidates there are.
#[derive(Drop)]
pub struct Path {}

impl Path {
    // How many positions may be put, and how many pushed.
    pub const SLOTS: usize = Sequence::NUMBERS;

    // Where the positions put begin.
    pub const PUTS: usize = Clause::LITERALS;

    // Where the positions pushed begin.
    pub const PUSHES: usize = Path::PUTS + Path::SLOTS;

    // The cell with the number of candidates.
    pub const CHOSEN: usize = Path::PUSHES + Path::SLOTS;

    // How many cells there are: any byte is the index of one.
    pub const CELLS: usize = 256;

    // What stands for no position: a byte like any cell, where an Option would take two.
    pub const NONE: usize = 255;

    // The head that is handed to the words below a First: none, each candidate has its own.
    // A number: the walk with an enum in its place was tried and takes 1 to 3 % more instructions.
    pub const BEFORE: usize = Path::NONE;

    // The literals of a query as bits are below this.
    pub const USES: u32 = 1 << Clause::LITERALS;

    // Bytes are below this.
    pub const BYTES: u32 = Path::CELLS as u32;

    // An undo is the index of a cell, times this, and the byte that it held.
    pub const UNDO: u64 = Path::CELLS as u64;

    // Undos are below this.
    pub const UNDOS: u64 = Path::UNDO * Path::UNDO;

    // A trail below this has room for one more undo.
    pub const TRAIL: u64 = Path::UNDOS * Path::UNDOS * Path::UNDOS;
}
