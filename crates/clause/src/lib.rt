// Clauses: their words, their shapes and faults, their tables (docs/REFERENCE.md, "Clause words").
#![tactic(auto)]

mod tables;
mod word;

pub use word::arity;

// What is wrong with a clause: its length (code 3), a word or the end that breaks the rules (4) or a ninth head (5), each with its position.
#[derive(Clone, Copy)]
pub enum Fault {
    BadLength,
    Bad(usize),
    Ninth(usize),
}

// An accepted clause's tables: where each literal starts, where the term at each position ends, how many right siblings it has,
// and the number of literals.
#[derive(Drop)]
pub struct Clause {
    pub tables: [u8; Clause::TABLES],
}

impl Clause {
    // The most words of a clause.
    pub const WORDS: usize = 64;

    // The most literals of a clause.
    pub const LITERALS: usize = 8;

    // Arities are below this: 0 to 7.
    pub const ARITIES: usize = 8;

    // Words are below this: 16 bits.
    pub const VALUES: u64 = 0x1_0000;

    // The word of variable 0; those of the others follow it.
    pub const VARIABLE: u64 = 0x4000;

    // Where the ends stand in the tables, after the starts of the literals.
    pub const ENDS: usize = Clause::LITERALS;

    // Where the right siblings stand in the tables.
    pub const SIBLINGS: usize = Clause::ENDS + Clause::WORDS;

    // Where the number of literals stands in the tables.
    pub const COUNT: usize = Clause::SIBLINGS + Clause::WORDS;

    // How many entries the tables have.
    pub const TABLES: usize = Clause::COUNT + 1;
}
