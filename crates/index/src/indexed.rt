// The query by the index of heads: for a caller who holds it beside the tree.
ghost use Rattle.std.specs.Prelude.{◌≡◌, true, replicate};
ghost use Rattle.tree.specs.Laid.{sized, well_laid};
ghost use Rattle.index.specs.Inner.Heads.{Indexed};
ghost use Rattle.walk.specs.Query as q;
ghost use Rattle.walk.specs.Query.{witness_words};

use crate::by_head::walk_heads;
use cells::Path;
use clause::Clause;
use query::told;
use tree::{Refusal, Tree};
use walk::Verdict;

// What a query answers, without a witness: the caller's slice is the tree of some clauses, with the index of its heads.
pub fn query_indexed(
    tree: &[u64],
    heads: &[u16],
    words: &[u16],
    budget: u64,
) -> Result<Verdict, Refusal>
    requires { (sized tree.now ≡ true) × (well_laid tree.now ≡ true) × Indexed tree.now heads.now }
    ensures { result ≡ (q.query tree.now words.now budget (replicate witness_words 0)).answer }
{
    if !reading::is_whole(words) {
        let shape = reading::read(words);
        let Ok(_) = shape else {
            return Err(Refusal::BadClause(shape.unwrap_err()));
        };
    }
    let clause = Clause::of(words);
    let tables = clause.tables;
    let mut cells = [Path::NONE as u8; Path::CELLS];
    cells[Path::CHOSEN] = 0;
    let end = Tree::used(tree[0]) + 1;
    let finding = walk_heads(&tree[1..end], heads, words, &tables, &mut cells, budget);
    told(finding, budget)
}
