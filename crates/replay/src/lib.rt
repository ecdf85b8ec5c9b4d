// Lists of calls run on a slice, with the claims about them (docs/REFERENCE.md, "Lists of calls").
#![tactic(auto)]

ghost use Rattle.std.specs.Prelude.{◌≡◌, ◌∷◌};
ghost use Rattle.book.specs.Book.{slice_of};
ghost use Rattle.book.specs.Encoding.{calls_of, HasWords, Ran};
ghost use Rattle.book.specs.Believable.{Believable};
ghost use Rattle.book.specs.Claims.{Run, Reached, Demand1, Reach, Demand2, Demand3, ExactCount};
ghost use Rattle.book.specs.Saved.{ReachSaved, PassedSaved, SavedIsMade, SavedDemand2, SavedDemand3, ReadsBook};
ghost use Rattle.book.specs.Backward.{ListsBook};
ghost use Rattle.tree.specs.Calls.{fresh};
ghost use Rattle.tree.specs.declared.Done.TheVariants.{Ready};

// Runs a call by its first three words and the rest, and gives the words after it: a clause goes no further than they do.
fn run_one<'a>(tree: &mut [u64], kind: u16, high: u16, low: u16, rest: &'a [u16]) -> &'a [u16]
    ensures { Ran tree.old (kind ∷ high ∷ low ∷ rest.now) result.now tree.new }
{
    let number = high as u32 * 0x1_0000 + low as u32;
    if kind == 0 {
        let _ = removal::remove(tree, number);
        return rest;
    }
    let (clause, next) = rest.split_at(rest.len().min((kind - 1) as usize));
    let _ = insertion::insert(tree, clause, number);
    next
}

// Makes an empty tree of a slice and runs the calls that words stand for, each on the slice as the call before left it.
// Where fresh answers "ready" the claims apply to these calls, whatever the words are; every list of calls has words, but for one with a clause of
// 65,535 words or more. The contract carries the claims, so that nothing is proved without them.
pub fn run(tree: &mut [u64], calls: &[u16])
    ensures slice { tree.new ≡ slice_of tree.old (calls_of calls.now) }
    ensures reached { (fresh tree.old).answer ≡ Ok Ready
        → Run tree.old (calls_of calls.now) × Reached tree.old (calls_of calls.now) }
    ensures lists { HasWords }
    ensures definitions { Believable }
    ensures demands { Demand1 × Reach × Demand2 × Demand3 }
    ensures count { ExactCount }
    ensures saved { ReachSaved × PassedSaved × SavedIsMade × SavedDemand2 × SavedDemand3 × ReadsBook }
    ensures backward { ListsBook }
{
    let _ = laid::fresh(tree);
    let mut left = calls;
    while let [kind, high, low, rest @ ..] = left {
        left = run_one(tree, *kind, *high, *low, rest);
    }
}
