// A cursor in a clause: down to a term's first argument, right to the next one, past a whole term.
ghost use Rattle.std.specs.Prelude.{◌≡◌};
ghost use Rattle.reading.specs.Inner.Cursor.{head_cursor, go_down, go_right, go_past};

use crate::Cursor;
use crate::word::is_inside;
use clause::arity;

impl Cursor {
    // A literal's head: it has no right siblings.
    pub(crate) fn head(at: usize) -> Self
        ensures { result ≡ head_cursor at }
    {
        Cursor { at, left: 0 }
    }

    // To the first argument of the term here, if it has one.
    pub(crate) fn down(self, words: &[u16]) -> Option<Self>
        ensures { result ≡ go_down words.now self }
    {
        let word = words.get(self.at)?;
        let left = arity(*word).checked_sub(1)?;
        let at = self.at + 1;
        Some(Cursor { at, left })
    }

    // To the right sibling of the term here, which ends at `end`, if it has one.
    pub(crate) fn right(self, end: usize) -> Option<Self>
        ensures { result ≡ go_right end self }
    {
        let left = self.left.checked_sub(1)?;
        Some(Cursor { at: end, left })
    }

    // Past the term here. When more terms are to come than there are words, arities are not added any more: the end or a fault comes first.
    pub(crate) fn past(self, words: &[u16]) -> Result<Self, usize>
        ensures { result ≡ go_past words.now self }
    {
        let mut at = self.at;
        let mut need: usize = 1;
        while need > 0 {
            if at >= words.len() {
                return Err(at);
            }
            let word = words[at];
            if !is_inside(word) {
                return Err(at);
            }
            need -= 1;
            if need < words.len() {
                need += arity(word);
            }
            at += 1;
        }
        Ok(Cursor { at, ..self })
    }
}
