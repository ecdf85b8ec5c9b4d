// The walk of the topmost row.
ghost use Rattle.cells.specs.Inner.Cells.{no_position, Walkable};
ghost use Rattle.walking.specs.Inner.Findings.{walk_top, Walked};

use cells::Path;
use clause::Clause;
use stepping::{Visit, meet_top};
use tree::extent;
use walking::{End, walk};

// Walks the topmost row, before the first candidate.
pub(crate) fn walk_top(
    words: &[u64],
    query: &[u16],
    tables: &[u8; Clause::TABLES],
    cells: &mut [u8; Path::CELLS],
    budget: u64,
) -> Result<u64, End>
    requires { Walkable query.now tables.now no_position cells.old }
    ensures { Walked (walk_top query.now words.now budget cells.old)
        cells.old cells.new result }
{
    let mut count: u64 = 0;
    let mut rest = words;
    // It hops by extents, so no `for` counts it.
    while rest.len() > 0 {
        let w = rest[0];
        let Visit::Tries = meet_top(w, rest.len(), query, tables, cells) else {
            return Err(End::Broken);
        };
        let size = extent(w);
        count = walk(
            &rest[1..size],
            query,
            tables,
            cells,
            Path::BEFORE,
            count,
            budget,
        )?;
        rest = &rest[size..];
    }
    Ok(count)
}
