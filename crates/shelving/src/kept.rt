// What is read off a shelf: how many clauses are on it, and each of them.
ghost use Rattle.std.specs.Prelude.{◌≡◌, ◌≤◌, ◌<◌, length, slice_get, Some};
ghost use Rattle.tree.specs.Laid.{max_kept};

use crate::{Card, Shelf};
use clause::Clause;

impl Shelf {
    // How many clauses are on it.
    pub fn len(&self) -> usize
        ensures is { result ≡ length self.now }
        ensures few { result ≤ max_kept }
    {
        self.count
    }

    // The clause at a place in the order, and its number.
    pub fn at(&self, place: usize) -> (u32, &[u16])
        requires { place < length self.now }
        ensures { slice_get self.now place ≡ Some (record { number = result.0; clause = result.1.now }) }
    {
        let cards = &self.cards;
        let card = cards[place];
        let slot = (card % Card::SLOTS) as usize;
        let start = slot * Clause::WORDS;
        let end = start + self.lengths[slot];
        ((card / Card::SLOTS) as u32, &self.rows[start..end])
    }
}
