// Fresh: a slice made an empty tree.
ghost use Rattle.std.specs.Prelude.{◌≡◌};
ghost use Rattle.tree.specs.Calls as calls;

use tree::{Done, Refusal, Tree};

// Makes an empty tree of a slice of any words.
pub fn fresh(tree: &mut [u64]) -> Result<Done, Refusal>
    ensures { record { answer = result; slice = tree.new } ≡ calls.fresh tree.old }
{
    if Tree::sized(tree.len()) {
        tree.fill(0);
        Ok(Done::Ready)
    } else {
        Err(Refusal::BadSlice)
    }
}
