// Insertion by the index of heads: for a caller who holds it beside the tree.
ghost use Rattle.std.specs.Prelude.{◌≡◌, ◌≤◌};
ghost use Rattle.std.proofs.Math.Option.{none};
ghost use Rattle.tree.specs.Laid.{region};
ghost use Rattle.tree.specs.Inner.Cut.{locate};
ghost use Rattle.tree.specs.Inner.ByWords.{insert_by_words};
ghost use Rattle.merging.specs.Inner.Inserting.{Nested, LeadsTo, Mergeable};
ghost use Rattle.index.specs.Inner.Following.{Leading};

use insertion::{insert_new, insert_placed};
use merging::{Place, follow};
use tree::{Done, Refusal, Tree, extent};

// Where the keys lead from below the Check of the second key on, whose place the caller knows from the index.
fn place_below(words: &[u64], keys: &[u64], at: usize) -> Place
    requires { Nested words.now × Leading words.now keys.now at }
    ensures { LeadsTo words.now keys.now result }
{
    follow(words, keys, at + 1, at + extent(words[at]), 2)
}

// Inserts a sequence under a number that no Success has, by the entry of the index for its first head: 0 where it leads nowhere.
// The caller holds the slice well laid, and knows the numbers in it.
pub fn insert_below(tree: &mut [u64], keys: &[u64], number: u32, at: usize) -> Result<Done, Refusal>
    requires { Mergeable tree.old keys.now × (locate (region tree.old) number 0 0 0 ≡ none) × (1 ≤ at → Leading (region tree.old) keys.now at) }
    ensures { record { answer = result; slice = tree.new }
        ≡ insert_by_words tree.old (record { number = number; keys = keys.now }) }
{
    if at == 0 {
        return insert_new(tree, keys, number);
    }
    let place = place_below(Tree::region(tree), keys, at);
    insert_placed(tree, keys, number, place)
}
