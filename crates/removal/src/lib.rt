// Removal by number on the words of a tree, in place (docs/REFERENCE.md, "Calls").
#![tactic(auto)]

ghost use Rattle.std.specs.Prelude.{◌≡◌, true, length};
ghost use Rattle.tree.specs.Laid.{sized, well_laid};
ghost use Rattle.tree.specs.Inner.Cut.{locate, lower};
ghost use Rattle.removal.specs.Inner.Close.{span_of, Lowerable, Removable, taken_out};
ghost use Rattle.tree.specs.Calls.{removal};
ghost use Rattle.tree.specs.Inner.ByWords.{remove_by_words};

use crate::close::close_up;
use laid::well_laid;
use tree::{Done, Refusal, Tree, extent, key};

mod close;

// The words that go, from the first to the last of them.
#[derive(Drop)]
pub struct Stretch {
    pub place: usize,
    pub last: usize,
}

// Where a number stands: its first Success, with the only children that lead to it.
pub(crate) fn locate(words: &[u64], number: u32) -> Option<Stretch>
    ensures { span_of result ≡ locate words.now number 0 0 0 }
{
    let wanted = number as u64;
    let mut from = 0;
    let mut above = 0;
    for (at, &w) in words.iter().enumerate() {
        let here = extent(w);
        if above != here + 1 {
            from = at;
        }
        if key(w) == wanted {
            return Some(Stretch {
                place: from,
                last: at,
            });
        }
        above = here;
    }
    None
}

// The extents that reach past these words lowered by `gone`. The caller's words can be.
fn lower(words: &mut [u64], gone: u64)
    requires { Lowerable words.old gone }
    ensures { words.new ≡ lower words.old (length words.old) gone }
{
    let count = words.len();
    for (at, w) in words.iter_mut().enumerate() {
        if extent(*w) > count - at {
            *w -= gone;
        }
    }
}

// `gone` words at `place` taken out: the extents above them lowered, the tail closed up, the header lowered.
// The caller has found them among the used words of a well-laid slice.
fn take_out(tree: &mut [u64], place: usize, gone: usize)
    requires { Removable tree.old place gone }
    ensures { tree.new ≡ taken_out tree.old place gone }
{
    let header = tree[0];
    let used = Tree::used(header);
    let at = place + 1;
    lower(&mut tree[1..at], gone as u64);
    close_up(&mut tree[at..], used - place, gone);
    tree[0] = Tree::one_less(header, gone);
}

// The removal of a number from a slice that the caller holds well laid.
fn remove_laid(tree: &mut [u64], number: u32) -> Result<Done, Refusal>
    requires { (sized tree.old ≡ true) × (well_laid tree.old ≡ true) }
    ensures { record { answer = result; slice = tree.new } ≡ remove_by_words tree.old number }
{
    let Some(run) = locate(Tree::region(tree), number) else {
        return Err(Refusal::NoSuchNumber);
    };
    let place = run.place;
    take_out(tree, place, run.last + 1 - place);
    Ok(Done::Removed)
}

// The removal of a number from a slice of any words.
pub fn remove(tree: &mut [u64], number: u32) -> Result<Done, Refusal>
    ensures { record { answer = result; slice = tree.new } ≡ removal tree.old number }
{
    if !Tree::sized(tree.len()) {
        return Err(Refusal::BadSlice);
    }
    if !well_laid(tree) {
        return Err(Refusal::Broken);
    }
    remove_laid(tree, number)
}
