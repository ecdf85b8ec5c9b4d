// The words of a row: the Checks that fail among them.
ghost use Rattle.std.specs.Prelude.{◌≡◌, ◌-◌, ◌<◌, ◌≤◌, true, length, ◌≢◌};
ghost use Rattle.tree.specs.Laid.{key_of};
ghost use Rattle.cells.specs.Inner.Cells.{operation_of, IsCheck, wanted_at, Skipped};

use machine::Key;
use tree::{Tree, extent};

// The key of the Check that fits at the head.
pub fn wanted(query: &[u16], head: usize) -> u64
    requires { head < length query.now }
    ensures { (result ≡ wanted_at query.now head) × IsCheck result }
{
    Key::CHECK + u64::from(query[head])
}

// Below this is what the exclusive or of two words leaves, less one in its operand, where their operations are the same and their operands are not.
const UNLIKE: u64 = (Key::OPERANDS - 1) * Tree::EXTENTS;

// Whether a word is a Check with another key than this Check's: the operations are the same, the operands are not.
fn fails(w: u64, key: u64) -> bool
    requires { IsCheck key }
    ensures { result ≡ true → (operation_of w ≡ 7) × (key_of w ≢ key) }
{
    std::num::wrapping_sub_u64(w ^ (key * Tree::EXTENTS), Tree::EXTENTS) < UNLIKE
}

// How many words of the row are left, from its next word on that is not a Check that fails.
pub fn skip(words: &[u64], at: usize, key: u64) -> usize
    requires { (at ≤ length words.now) × IsCheck key }
    ensures { (result ≤ length words.now) × Skipped words.now at key (length words.now - result) }
{
    // It hops by extents, so no `for` counts it.
    let mut i = at;
    let mut to = at;
    while to < words.len() {
        i = to;
        let w = words[i];
        if !fails(w, key) {
            return words.len() - i;
        }
        let size = extent(w);
        if size == 0 {
            return words.len() - i;
        }
        to = i + size;
    }
    if to > words.len() {
        return words.len() - i;
    }
    0
}
