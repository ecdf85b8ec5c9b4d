// The calls of the C interface (docs/REFERENCE.md, "Calls"), for Rattle: `codetree_c` exports each under its name.
#![tactic(auto)]

ghost use Rattle.std.specs.Prelude.{◌≡◌};
ghost use Rattle.interface.specs.Calls.{ct_fresh, ct_insert, ct_remove, ct_query, ct_ceiling, ct_read_back, ct_check, ct_backward};
ghost use Rattle.interface.specs.Claims.{CtDemand1, CtReach, CtDemand2, CtDemand3, CtExactCount, ToldApart};
ghost use Rattle.interface.specs.Claims.{CtChecked, CtReadsBook, CtSavedIsMade, CtListsBook};

// Makes an empty tree of a slice. Returns 0 or 1.
pub fn ct_fresh(tree: &mut [u64]) -> u64
    ensures { record { number = result; words = tree.new } ≡ ct_fresh tree.old }
{
    reply::hand(laid::fresh(tree), &mut [])
}

// Inserts a clause under a number. Returns 0 or a code; tells the position for 4 and 5, the number for 8.
// The contract carries what is claimed of the refusals of all these functions.
pub fn ct_insert(tree: &mut [u64], clause: &[u16], number: u32, told: &mut [u64]) -> u64
    ensures hands { record { number = result; words = tree.new; told = told.new }
        ≡ ct_insert tree.old clause.now number told.old }
    ensures refusals { CtDemand1 }
{
    reply::hand(insertion::insert(tree, clause, number), told)
}

// Removes the clause with a number. Returns 0 or a code.
pub fn ct_remove(tree: &mut [u64], number: u32) -> u64
    ensures { record { number = result; words = tree.new } ≡ ct_remove tree.old number }
{
    reply::hand(removal::remove(tree, number), &mut [])
}

// Asks whether a kept clause covers a clause. Returns 0 or a code; tells 1 or 0 for covered or not, the number, the count;
// or the position for 4 and 5, the count for 12.
// The contract carries what is claimed of lists of these calls and of what they tell, so that nothing is proved without it.
pub fn ct_query(
    tree: &[u64],
    clause: &[u16],
    budget: u64,
    witness: &mut [u16],
    told: &mut [u64],
) -> u64
    ensures hands { record { number = result; words = witness.new; told = told.new }
        ≡ ct_query tree.now clause.now budget witness.old told.old }
    ensures lists { CtReach × CtDemand2 × CtDemand3 }
    ensures count { CtExactCount }
    ensures apart { ToldApart }
{
    reply::hand(query::query(tree, clause, budget, witness), told)
}

// The ceiling of a query's count. Returns 0 or 13; tells the ceiling.
pub fn ct_ceiling(kept: u64, q: u64, m: u64, told: &mut [u64]) -> u64
    ensures { record { number = result; told = told.new } ≡ ct_ceiling kept q m told.old }
{
    reply::hand(ceiling::ceiling(kept, q, m), told)
}

// Reads the clause with a number back into a slice. Returns 0 or a code; tells the clause's length.
pub fn ct_read_back(tree: &[u64], number: u32, out: &mut [u16], told: &mut [u64]) -> u64
    ensures { record { number = result; words = out.new; told = told.new }
        ≡ ct_read_back tree.now number out.old told.old }
{
    reply::hand(checking::read_back(tree, number, out), told)
}

// Checks whether a slice is the tree of some clauses, or of none. Returns 0 or a code.
// The contract carries what is claimed of saved trees.
pub fn ct_check(tree: &[u64]) -> u64
    ensures hands { result ≡ ct_check tree.now }
    ensures saved { CtChecked × CtReadsBook × CtSavedIsMade }
{
    reply::hand(checking::check(tree), &mut [])
}

// Lists the kept clauses that a clause subsumes. Returns 0 or a code; tells how many and the candidates in all, or the position for 4 and 5, the count
// for 12. The contract carries what is claimed of such listings after lists of calls.
pub fn ct_backward(
    tree: &[u64],
    clause: &[u16],
    budget: u64,
    list: &mut [u32],
    told: &mut [u64],
) -> u64
    ensures hands { record { number = result; words = list.new; told = told.new }
        ≡ ct_backward tree.now clause.now budget list.old told.old }
    ensures lists { CtListsBook }
{
    reply::hand(listing::backward(tree, clause, budget, list), told)
}
