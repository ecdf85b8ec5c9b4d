// The walk over the words below a node.
ghost use Rattle.std.specs.Prelude.{◌≡◌};
ghost use Rattle.cells.specs.Inner.Cells.{no_position, HasPlace, Walkable};
ghost use Rattle.walking.specs.Inner.Findings.{walk_below, Walked};

use crate::End;
use cells::{
    Above, Path, begin, in_use, passes, release, reserve, restore, skip, trace, unwind, wanted,
};
use clause::Clause;
use stepping::{Visit, meet, operand};
use tree::extent;

// Walks the words below a node: from each candidate of a First, which hands on no head, or once, siblings in order. After a miss the cells are as before.
// A First passes over the literals that are used on its path, before it looks at the budget.
// The last word of a row needs no call: what stands below it is the row from there on, and the trail brings its cell back.
// The caller (walk_top in the crate query, walk_head in the crate index) holds the cells as that node leaves them.
pub fn walk(
    words: &[u64],
    query: &[u16],
    tables: &[u8; Clause::TABLES],
    cells: &mut [u8; Path::CELLS],
    head: usize,
    count: u64,
    budget: u64,
) -> Result<u64, End>
    requires { Walkable query.now tables.now head cells.old × (head ≡ no_position → HasPlace cells.old) }
    ensures { Walked (walk_below query.now words.now budget head cells.old count)
        cells.old cells.new result }
{
    let above = Above::of(head);
    let saved = reserve(cells, above);
    let mut n = count;
    'tries: {
        // Bounded, so that the compiler knows that they are few: else it lays out vectors for them, and a call takes 240 bytes of the stack, not 192.
        for j in 0..passes(tables, above).min(Clause::LITERALS) {
            if let Above::First = above {
                if in_use(saved, j) {
                    continue;
                }
                if n >= budget {
                    break 'tries Err(End::Spent);
                }
                n += 1;
            }
            let mut here = begin(query, tables, cells, above, head, j);
            let mut trail: u64 = 0;
            let left = skip(words, 0, wanted(query, here));
            let start = words.len() - left;
            let mut rest = &words[start..];
            // It hops by extents, so no `for` counts it.
            while rest.len() > 0 {
                let w = rest[0];
                let visit = meet(w, rest.len(), query, tables, cells, here);
                let size = extent(w);
                let (to, undo) = match visit {
                    Visit::Stuck => break 'tries Err(End::Broken),
                    Visit::Hit => break 'tries Err(End::Found(operand(w), n)),
                    Visit::Fails => {
                        rest = &rest[size..];
                        continue;
                    }
                    Visit::Tries => (Path::BEFORE, 0),
                    Visit::Below(head) => {
                        if size == rest.len() {
                            here = head;
                            rest = &rest[1..];
                            continue;
                        }
                        (head, 0)
                    }
                    Visit::Stored(head, undo) => {
                        if size == rest.len() && trail < Path::TRAIL {
                            trail = trace(trail, undo);
                            here = head;
                            rest = &rest[1..];
                            continue;
                        }
                        (head, undo)
                    }
                };
                let found = walk(&rest[1..size], query, tables, cells, to, n, budget);
                let Ok(tried) = found else {
                    break 'tries found;
                };
                n = tried;
                restore(cells, undo);
                let more = skip(rest, size, wanted(query, here));
                let next = rest.len() - more;
                rest = &rest[next..];
            }
            unwind(cells, trail);
        }
        release(cells, above, saved);
        Ok(n)
    }
}
