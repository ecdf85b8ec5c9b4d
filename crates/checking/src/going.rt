// Going over the words of a tree from one Success to the next, with the keys above it.
ghost use Rattle.std.specs.Prelude.{◌≡◌, true, ◌≤◌, length};
ghost use Rattle.machine.specs.Compiled.{max_keys};
ghost use Rattle.tree.specs.Laid.{sized, well_laid, decode};
ghost use Rattle.tree.specs.Laws.{paths_of};
ghost use Rattle.checking.specs.Inner.Scan.{Nested, Closed, Comes};
ghost use Rattle.checking.specs.Inner.Stage.{Stage, stage, Steps};

use decompiling::Foreign;
use machine::{Key, Sequence};
use std::marker::Model;
use tree::{Tree, extent, key};

// The Success that comes next: its place, and how many keys stand above it.
#[derive(Drop)]
pub struct Success {
    pub place: usize,
    pub above: usize,
}

// How many of the words above still reach past a place: `ends` says where each one's extent ends, the topmost first.
fn still_open(ends: &[usize], depth: usize, at: usize) -> usize
    requires { depth ≤ length ends.now }
    ensures { Closed ends.now depth at result }
{
    for lowest in (0..depth).rev() {
        if ends[lowest] > at {
            return lowest + 1;
        }
    }
    0
}

// Goes on to the next Success, from a place with `depth` words above the one before it: their keys and the ends of their extents are in the two arrays.
pub fn next_success(
    words: &[u64],
    from: usize,
    depth: usize,
    keys: &mut [u64],
    ends: &mut [usize],
) -> Result<Option<Success>, Foreign>
    requires { Nested words.now × (from ≤ length words.now) × (depth ≤ max_keys) × (length keys.old ≡ max_keys) × (length ends.old ≡ max_keys) }
    ensures { Comes words.now from depth keys.old ends.old result keys.new ends.new }
{
    let mut above = depth;
    for place in from..words.len() {
        let w = words[place];
        let k = key(w);
        above = still_open(ends, above, place);
        if k < Key::FIRST {
            return Ok(Some(Success { place, above }));
        }
        if above >= Sequence::KEYS {
            return Err(Foreign {});
        }
        let end = place + extent(w);
        keys[above] = k;
        ends[above] = end;
        above += 1;
    }
    Ok(None)
}

// A pass over the words of a tree: how far it has come, and the keys of the words above that place with the ends of their extents.
#[derive(Drop)]
pub struct Pass<'a> {
    words: &'a [u64],
    at: usize,
    above: usize,
    keys: [u64; Sequence::KEYS],
    ends: [usize; Sequence::KEYS],
}

// A contract sees the path of the Success that the pass has come to, and the entries that are left.
impl<'a> Model for Pass<'a> {
    ghost Value = { Stage };

    ghost view = { λ p. stage p.words.now p.at p.above p.keys p.ends };

    ghost invariant = { λ p. Nested p.words.now × (p.at ≤ length p.words.now) × (p.above ≤ max_keys) };
}

impl<'a> Pass<'a> {
    // A pass over the used words of a well-laid slice, from the first.
    pub fn over(tree: &'a [u64]) -> Self
        requires { (sized tree.now ≡ true) × (well_laid tree.now ≡ true) }
        ensures { result.left ≡ paths_of (decode tree.now) }
    {
        Pass {
            words: Tree::region(tree),
            at: 0,
            above: 0,
            keys: [0; Sequence::KEYS],
            ends: [0; Sequence::KEYS],
        }
    }

    // The keys above the Success that the pass has come to.
    pub fn path(&self) -> &[u64]
        ensures { result.now ≡ self.now.path }
    {
        &self.keys[..self.above]
    }

    // Goes on to the next Success, if there is one, and tells its number.
    pub fn next(&mut self) -> Result<Option<u32>, Foreign>
        ensures { Steps self.old result self.new }
    {
        let next = next_success(
            self.words,
            self.at,
            self.above,
            &mut self.keys,
            &mut self.ends,
        )?;
        let Some(Success { place, above }) = next else {
            return Ok(None);
        };
        self.at = place + 1;
        self.above = above;
        Ok(Some(key(self.words[place]) as u32))
    }
}
