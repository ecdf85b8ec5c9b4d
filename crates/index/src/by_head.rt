// The walk of a tree of clauses, by the index of its heads.
ghost use Rattle.std.specs.Prelude.{◌≡◌};
ghost use Rattle.tree.specs.Laid.{parse};
ghost use Rattle.index.specs.Inner.Heads.{IndexOf, Encoded};
ghost use Rattle.cells.specs.Inner.Cells.{no_position, count_in, Walkable};
ghost use Rattle.walking.specs.Inner.Findings.{walk_top, Walked};

use crate::head::walk_head;
use cells::{Above, Path, begin, passes, release, reserve};
use clause::Clause;
use walking::End;

// Walks the words of a tree of clauses, before the first candidate: the candidates of its First, of which no literal is in use.
pub(crate) fn walk_heads(
    words: &[u64],
    heads: &[u16],
    query: &[u16],
    tables: &[u8; Clause::TABLES],
    cells: &mut [u8; Path::CELLS],
    budget: u64,
) -> Result<u64, End>
    requires { Encoded words.now × IndexOf (parse words.now) heads.now × Walkable query.now tables.now no_position cells.old
        × (count_in cells.old ≡ 0) }
    ensures { Walked (walk_top query.now words.now budget cells.old)
        cells.old cells.new result }
{
    let mut n: u64 = 0;
    if words.len() == 0 {
        return Ok(n);
    }
    let saved = reserve(cells, Above::First);
    'tries: {
        for j in 0..passes(tables, Above::First) {
            if n >= budget {
                break 'tries Err(End::Spent);
            }
            n += 1;
            let here = begin(query, tables, cells, Above::First, Path::BEFORE, j);
            let found = walk_head(words, heads, query, tables, cells, here, n, budget);
            let Ok(tried) = found else {
                break 'tries found;
            };
            n = tried;
        }
        release(cells, Above::First, saved);
        Ok(n)
    }
}
