// The lines of the output, put on a page of lent bytes.
#![tactic(auto)]

mod decimal;
mod line;
mod removals;
mod text;

// The output: the lent bytes, and the place after what was put into them.
#[derive(Drop)]
pub struct Page<'a> {
    pub bytes: &'a mut [u8],
    pub at: usize,
}

// The most bytes of a line.
#[derive(Drop)]
pub struct Longest {}

impl Longest {
    // Of a record's line.
    pub const LINE: usize = 45;
    // Of the line of a removal.
    pub const REMOVAL: usize = 20;
}
