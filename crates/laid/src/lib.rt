// Slices of tree words: fresh, and whether a slice is well laid, its representation invariant (docs/REFERENCE.md, "Tree words"): one pass over the
// words from left to right, no stack.
#![tactic(auto)]

ghost use Rattle.std.specs.Prelude.{◌≡◌, ◌&&◌, ◌-◌, eqb};
ghost use Rattle.tree.specs.Keys.{next_key};
ghost use Rattle.tree.specs.Laid.{key_of, extent_of, successes};
ghost use Rattle.tree.specs.Laid as laid;

use machine::Key;
use tree::{Tree, extent, key};

mod freshen;

pub use freshen::fresh;

// The least key that may stand to the right of a sibling: a Success has no second beside it.
fn next_key(w: u64) -> u64
    ensures { result ≡ next_key (key_of w) }
{
    let k = key(w);
    if k < Key::FIRST { Key::FIRST } else { k + 1 }
}

// The number of words below a word.
fn below(w: u64) -> usize
    ensures { result ≡ extent_of w - 1 }
{
    let e = extent(w);
    if e == 0 { 0 } else { e - 1 }
}

// Whether a word is an instruction: an operation up to 8, operand 0 for First, Down and Right, and exactly a Success has the extent 1.
fn sound(w: u64) -> bool
    ensures { result ≡ laid.sound w }
{
    let k = key(w);
    let e = extent(w);
    if k < Key::FIRST {
        return e == 1;
    }
    if e == 1 {
        return false;
    }
    if k >= Key::END {
        return false;
    }
    if k >= Key::PUT {
        return true;
    }
    k % Key::OPERANDS == 0
}

// Whether the first `count` words are the extents of siblings one after another, with keys that rise and at most one Success.
fn row(words: &[u64], count: usize) -> bool
    ensures { result ≡ laid.row words.now 0 0 count }
{
    if count > words.len() {
        return false;
    }
    let mut rest = &words[..count];
    let mut least = 0;
    while let &[w, ..] = rest {
        let e = extent(w);
        if key(w) < least || e == 0 || e > rest.len() {
            return false;
        }
        least = next_key(w);
        rest = &rest[e..];
    }
    true
}

// Whether each word is sound, what is below it is a row, and `kept` of the words are Success.
// Linear, whatever the words are, after the topmost are found to be a row: the pass stops at the first row that fails, up to which the extents nest,
// so that no word is a child of two. Each is looked at once for itself and once as a child.
fn rows(words: &[u64], kept: usize) -> bool
    ensures { result ≡ (laid.rows words.now && eqb (successes words.now) kept) }
{
    let mut found = 0;
    for (at, &w) in words.iter().enumerate() {
        if key(w) < Key::FIRST {
            found += 1;
        }
        if !sound(w) || !row(&words[at + 1..], below(w)) {
            return false;
        }
    }
    found == kept
}

// Whether all words are 0.
fn zeros(words: &[u64]) -> bool
    ensures { result ≡ laid.zeros words.now }
{
    words.iter().all(|w| *w == 0)
}

// Whether a slice, of any length, is well laid: its header, the topmost words, all used words, the words after them.
pub fn well_laid(tree: &[u64]) -> bool
    ensures { result ≡ laid.well_laid tree.now }
{
    let [first, rest @ ..] = tree else {
        return false;
    };
    let header = Tree::header(*first);
    if header.used > rest.len() || header.kept > Tree::CLAUSES {
        return false;
    }
    let (words, after) = rest.split_at(header.used);
    row(words, header.used) && rows(words, header.kept) && zeros(after)
}
