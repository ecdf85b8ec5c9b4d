// The entries of the index, made for a tree.
ghost use Rattle.std.specs.Prelude.{◌≡◌, true};
ghost use Rattle.tree.specs.Laid.{sized, well_laid, parse};
ghost use Rattle.index.specs.Inner.Heads.{IndexOf, SpareFor, Indexed, Renewable, Encoded};

use machine::Key;
use tree::{Tree, extent, key};

// Notes the places of the Checks in the row below the topmost of the words.
fn note(words: &[u64], heads: &mut [u16])
    requires { Encoded words.now × SpareFor (parse words.now) heads.old }
    ensures { IndexOf (parse words.now) heads.new }
{
    // `at` hops by extents and is what is noted, so no `for` counts it.
    let mut at: usize = 1;
    while at < words.len() {
        let w = words[at];
        let head = (key(w) % Key::OPERANDS) as usize;
        heads[head] = at as u16;
        at += extent(w);
    }
}

// Makes the index of a tree. The caller's entries for heads that the tree does not have are 0.
pub fn renew(tree: &[u64], heads: &mut [u16])
    requires { (sized tree.now ≡ true) × (well_laid tree.now ≡ true) × Renewable tree.now heads.old }
    ensures { Indexed tree.now heads.new }
{
    note(Tree::region(tree), heads);
}
