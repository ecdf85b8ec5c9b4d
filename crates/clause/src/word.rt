// A clause word's arity.
ghost use Rattle.std.specs.Prelude.{◌≡◌};
ghost use Rattle.clause.specs.Word.{arity as Word·arity};

use crate::Clause;

// The number of a word's arguments: three bits, above the eleven of the number.
pub fn arity(word: u16) -> usize
    ensures { result ≡ Word·arity word }
{
    (word / 0x800) as usize % Clause::ARITIES
}
