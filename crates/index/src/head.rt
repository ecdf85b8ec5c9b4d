// The walk of the row of heads, by the index.
ghost use Rattle.std.specs.Prelude.{◌≤◌, ◌<◌, length, drop};
ghost use Rattle.tree.specs.Laid.{parse};
ghost use Rattle.index.specs.Inner.Heads.{IndexOf, Encoded};
ghost use Rattle.index.specs.Inner.Following.{walk_row};
ghost use Rattle.cells.specs.Inner.Cells.{Walkable};
ghost use Rattle.walking.specs.Inner.Findings.{Walked};

use cells::Path;
use clause::Clause;
use tree::extent;
use walking::{End, walk};

// Walks the row of heads from a candidate: of its Checks only the one with the word at the head can go on, so the walk goes on below that one.
pub(crate) fn walk_head(
    words: &[u64],
    heads: &[u16],
    query: &[u16],
    tables: &[u8; Clause::TABLES],
    cells: &mut [u8; Path::CELLS],
    here: usize,
    count: u64,
    budget: u64,
) -> Result<u64, End>
    requires { Encoded words.now × IndexOf (parse words.now) heads.now × Walkable query.now tables.now here cells.old
        × (here < length query.now) × (1 ≤ length words.now) }
    ensures { Walked (walk_row query.now (drop 1 words.now) budget here cells.old count)
        cells.old cells.new result }
{
    let head = usize::from(query[here]);
    let at = usize::from(heads[head]);
    if at == 0 {
        return Ok(count);
    }
    let from = at + 1;
    let to = at + extent(words[at]);
    walk(&words[from..to], query, tables, cells, here, count, budget)
}
