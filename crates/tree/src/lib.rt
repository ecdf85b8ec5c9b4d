// Tree words (docs/REFERENCE.md, "Tree words"): the fields of a word and of a header, the size of a slice; what calls answer.
#![tactic(auto)]

ghost use Rattle.std.specs.Prelude.{◌≡◌, ◌≤◌, ◌<◌, length, get_or};
ghost use Rattle.tree.specs.Forest.{word_limit, header_of};
ghost use Rattle.tree.specs.Laid.{tree_sized, used_of, kept_of, one_more, one_less, region};

use clause::Fault;

mod fields;
mod refusals;

pub use fields::{extent, key, word};

// What is returned on refusal, by every call; a refused clause's fault, with its position, stands inside. `Held`: a variant of the clause, equal up to
// the names of its variables, is kept under this number. `Spent`: the budget of candidates is used up, after so many. `NoSuchTree`: the slice is well laid,
// but it is not the tree of some clauses, or of none, under different numbers.
// `code_of` and `values_of` of specs/Refusal give the code and the values of each case (docs/REFERENCE.md, "Calls").
#[derive(Clone, Copy)]
pub enum Refusal {
    BadSlice,
    Broken,
    BadClause(Fault),
    ShortWitness,
    NumberTaken,
    Held(u32),
    NoSuchNumber,
    ListFull,
    NoRoom,
    Spent(u64),
    BadSize,
    NoSuchTree,
    ShortOutput,
    ShortList,
}

// What a call that changes a tree has done: "ready" of fresh, "kept" of insertion, "removed" of removal.
#[derive(Clone, Copy)]
pub enum Done {
    Ready,
    Kept,
    Removed,
}

// What a tree's header, its first word, says: the used instruction words, the kept clauses.
#[derive(Drop)]
pub struct Tree {
    pub used: usize,
    pub kept: usize,
}

impl Tree {
    // The fewest words of a tree's slice.
    pub const LEAST: usize = 2;
    // The most words of a tree's slice.
    pub const WORDS: usize = 0x1_0000;
    // The most clauses that a tree keeps.
    pub const CLAUSES: usize = 1024;

    // Extents are below this: the lower bits of a tree word, with its key above them.
    pub const EXTENTS: u64 = 0x1000_0000;
    // The kept clauses are below this: the lower bits of a header, with the used words above them.
    const KEPT: u64 = 0x1_0000_0000;

    // The used words, by a header.
    pub fn used(word: u64) -> usize
        ensures { result ≡ used_of word }
    {
        (word / Self::KEPT) as usize
    }

    // The kept clauses, by a header.
    pub fn kept(word: u64) -> usize
        ensures { result ≡ kept_of word }
    {
        (word % Self::KEPT) as usize
    }

    // Reads a header.
    pub fn header(word: u64) -> Self
        ensures { (result.used ≡ used_of word) × (result.kept ≡ kept_of word) }
    {
        Self {
            used: Self::used(word),
            kept: Self::kept(word),
        }
    }

    // The used words of a slice, which has as many after its header.
    pub fn region(tree: &[u64]) -> &[u64]
        requires { used_of (get_or tree.now 0 0) < length tree.now }
        ensures { result.now ≡ region tree.now }
    {
        let end = Self::used(tree[0]) + 1;
        &tree[1..end]
    }

    // The header with `new` used words more and one clause more, for which it has room.
    pub fn one_more(word: u64, new: usize) -> u64
        requires { one_more word new < word_limit }
        ensures { result ≡ one_more word new }
    {
        word + (new as u64 * Self::KEPT + 1)
    }

    // The header with `gone` used words less and one clause less, which it has.
    pub fn one_less(word: u64, gone: usize) -> u64
        requires { header_of gone 1 ≤ word }
        ensures { result ≡ one_less word gone }
    {
        word - (gone as u64 * Self::KEPT + 1)
    }

    // Whether a slice of so many words may hold a tree.
    pub fn sized(words: usize) -> bool
        ensures { result ≡ tree_sized words }
    {
        Self::LEAST <= words && words <= Self::WORDS
    }
}
