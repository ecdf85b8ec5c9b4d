// Listing the kept clauses that a given one subsumes (docs/REFERENCE.md, "Calls"). The clauses of the tree are laid on a shelf by rising number; then
// each is queried in a tree of the given one alone, with what is left of the budget. What is found is written at the end.
#![tactic(auto)]

ghost use Rattle.std.specs.Prelude.{◌≡◌, length};
ghost use Rattle.clause.specs.Clause.{Accepted};
ghost use Rattle.clause.specs.Lists.{All};
ghost use Rattle.readback.specs.Calls as calls;
ghost use Rattle.backward.specs.Calls as back;
ghost use Rattle.backward.specs.Calls.{listed_in};
ghost use Rattle.backward.specs.Listing.{list_from};
ghost use Rattle.shelving.specs.Inner.Shelf.{AcceptedPair};

use backward::Listed;
use checking::check;
use machine::Sequence;
use reading::read;
use shelving::{Shelf, shelve_tree};
use tree::{Refusal, Tree};

mod trying;

use trying::try_all;

// The tree of a clause alone.
#[derive(Drop)]
struct Lone {}

impl Lone {
    // Its words: the header, the instructions of a sequence, its Success.
    const WORDS: usize = Sequence::KEYS + 2;
}

// Lists the clauses on a shelf that an accepted one subsumes.
fn list_shelf(
    clause: &[u16],
    budget: u64,
    shelf: &Shelf,
    list: &mut [u32],
) -> Result<Listed, Refusal>
    requires { Accepted clause.now × All AcceptedPair shelf.now }
    ensures { record { answer = result; list = list.new }
        ≡ listed_in budget list.old (list_from clause.now budget shelf.now (length list.old) 0) }
{
    let mut numbers = [0u32; Tree::CLAUSES];
    let listed = try_all(clause, budget, shelf, list.len(), &mut numbers)?;
    let count = listed.count;
    list[..count].copy_from_slice(&numbers[..count]);
    Ok(listed)
}

// Lists the kept clauses that an accepted one subsumes, in a slice that the caller knows to pass the check.
pub fn list_known(
    tree: &[u64],
    clause: &[u16],
    budget: u64,
    list: &mut [u32],
) -> Result<Listed, Refusal>
    requires { (calls.check tree.now ≡ Ok tt) × Accepted clause.now }
    ensures { record { answer = result; list = list.new }
        ≡ back.backward tree.now clause.now budget list.old }
{
    let mut shelf = Shelf::new();
    shelve_tree(tree, &mut shelf);
    list_shelf(clause, budget, &shelf, list)
}

// Lists the kept clauses that a clause subsumes, in a slice of any words.
pub fn backward(
    tree: &[u64],
    clause: &[u16],
    budget: u64,
    list: &mut [u32],
) -> Result<Listed, Refusal>
    ensures { record { answer = result; list = list.new }
        ≡ back.backward tree.now clause.now budget list.old }
{
    if !Tree::sized(tree.len()) {
        return Err(Refusal::BadSlice);
    }
    let shape = read(clause);
    let Ok(_) = shape else {
        return Err(Refusal::BadClause(shape.unwrap_err()));
    };
    check(tree)?;
    list_known(tree, clause, budget, list)
}
