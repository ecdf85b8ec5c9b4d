// The program's input, byte by byte and record by record (docs/REFERENCE.md, "The program").
#![tactic(auto)]

use record::Totals;

mod input;

pub use input::read_some;

// A field of the input: 16 bits.
#[derive(Drop)]
struct Field {}

impl Field {
    // Its bytes.
    const BYTES: usize = 2;
}

// Whether the next byte is the first of a field, or the second, with the first.
#[derive(Clone, Copy, Default)]
pub enum Half {
    #[default]
    Even,
    Odd(u8),
}

// What the next field is: a record's number; its word count, with its number; or one of its words, with its number, its count and the words so far.
#[derive(Clone, Copy, Default)]
pub enum Stage {
    #[default]
    AtNumber,
    AtCount(u16),
    AtWord(u16, u16, u16),
}

// How far the reading of the input is, and the totals. By default it is the session before the first byte.
#[derive(Clone, Copy, Default)]
pub struct Session {
    pub half: Half,
    pub stage: Stage,
    pub totals: Totals,
}

// The heading of a record: its number and its word count.
#[derive(Clone, Copy)]
pub struct Heading {
    pub number: u16,
    pub count: u16,
}

impl Heading {
    // Its bytes: two fields.
    const BYTES: usize = 2 * Field::BYTES;
}

// What some more of the input leads to: the reading goes on, or a record is whole.
#[derive(Drop)]
pub enum Next {
    Reads(Half, Stage),
    Ends(Heading),
}

// Some more of the input: how many bytes were taken, and what they lead to.
#[derive(Drop)]
pub struct Portion {
    pub taken: usize,
    pub next: Next,
}
