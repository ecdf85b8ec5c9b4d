// The queries of the clauses on the shelf, one after another, in the tree of the given clause alone.
ghost use Rattle.clause.specs.Clause.{Accepted};
ghost use Rattle.clause.specs.Lists.{All};
ghost use Rattle.backward.specs.Listing.{list_from};
ghost use Rattle.shelving.specs.Inner.Shelf.{AcceptedPair};
ghost use Rattle.listing.specs.Inner.Queries.{CameTo};

use crate::Lone;
use backward::Listed;
use insertion::insert;
use query::decide;
use shelving::Shelf;
use tree::{Refusal, Tree};
use walk::Verdict;

// Queries the clauses on a shelf, until the budget is spent or one number more is found than there is room for: the numbers of those found
// are noted, and it tells how many they are, and the candidates in all.
pub(crate) fn try_all(
    clause: &[u16],
    budget: u64,
    shelf: &Shelf,
    room: usize,
    numbers: &mut [u32; Tree::CLAUSES],
) -> Result<Listed, Refusal>
    requires { Accepted clause.now × All AcceptedPair shelf.now }
    ensures { CameTo budget room (list_from clause.now budget shelf.now room 0) result numbers.new }
{
    let mut lone = [0u64; Lone::WORDS];
    let _ = insert(&mut lone, clause, 0);
    let mut many = 0;
    let mut tried = 0;
    for place in 0..shelf.len() {
        let (number, kept) = shelf.at(place);
        let Ok(verdict) = decide(&lone, kept, budget - tried) else {
            return Err(Refusal::Spent(budget));
        };
        match verdict {
            Verdict::NotCovered(count) => {
                tried += count;
            }
            Verdict::Covered(_, count) => {
                tried += count;
                if many >= room {
                    return Err(Refusal::ShortList);
                }
                numbers[many] = number;
                many += 1;
            }
        }
    }
    Ok(Listed {
        count: many,
        candidates: tried,
    })
}
