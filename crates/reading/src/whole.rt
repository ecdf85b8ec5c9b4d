// Whether words are a whole clause, with no fault told.
ghost use Rattle.std.specs.Prelude.{◌≡◌};
ghost use Rattle.clause.specs.Clause.{shape};
ghost use Rattle.reading.specs.Inner.Whole.{is_whole};

use crate::word::{is_head, is_inside};
use clause::{Clause, arity};

// Whether the words are a whole clause: one pass that counts the terms to come. Quicker than `read`, which tells the fault too.
pub fn is_whole(words: &[u16]) -> bool
    ensures { result ≡ is_whole (shape words.now) }
{
    if words.is_empty() || words.len() > Clause::WORDS {
        return false;
    }
    let mut need: usize = 0;
    let mut count: usize = 0;
    for &word in words {
        if need == 0 {
            if !is_head(word) {
                return false;
            }
            count += 1;
        } else {
            if !is_inside(word) {
                return false;
            }
            need -= 1;
        }
        need += arity(word);
    }
    count <= Clause::LITERALS && need == 0
}
