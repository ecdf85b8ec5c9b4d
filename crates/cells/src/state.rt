// The state of a path in lent cells, laid out as `Path` says.
ghost use Rattle.std.specs.Prelude.{◌≡◌, ◌+◌, ◌*◌, ◌%◌, ◌<◌, length, take, slice_index};
ghost use Rattle.clause.specs.Clause.{Accepted, max_literals, literals};
ghost use Rattle.clause.specs.Inner.Tables.{at_count};
ghost use Rattle.cells.specs.Inner.Cells.{cell_count, undo_limit, trail_limit, count_in, HasPlace, HasCandidate, HasLiterals, Tables};
ghost use Rattle.cells.specs.Inner.Cells.{use_limit, bits_of, has_bit, uses_of, saved_byte};
ghost use Rattle.cells.specs.Inner.Cells.{restored, unwound, above_of, reserved, candidate, released, kept_in, pass_head, passes_of};
ghost use Rattle.cells.specs.declared.Above.TheVariants.{First};

use crate::{Above, Path};
use clause::Clause;

impl Above {
    // What words stand below, by the head that is handed to them.
    pub fn of(head: usize) -> Above
        ensures { result ≡ above_of head }
    {
        if head == Path::BEFORE {
            Above::First
        } else {
            Above::Step
        }
    }
}

// Stores back what a visit stored over, by the lowest 16 bits of an undo.
pub fn restore(cells: &mut [u8; Path::CELLS], undo: u64)
    requires { length cells.old ≡ cell_count }
    ensures { cells.new ≡ restored undo cells.old }
{
    if undo == 0 {
        return;
    }
    let slot = (undo / Path::UNDO % Path::UNDO) as usize;
    cells[slot] = (undo % Path::UNDO) as u8;
}

// One more undo on a trail with room for it.
pub fn trace(trail: u64, undo: u64) -> u64
    requires { (trail < trail_limit) × (undo < undo_limit) }
    ensures { result ≡ trail * undo_limit + undo }
{
    trail * Path::UNDOS + undo
}

// Stores back what the visits on a trail stored over, the latest first.
pub fn unwind(cells: &mut [u8; Path::CELLS], trail: u64)
    requires { length cells.old ≡ cell_count }
    ensures { cells.new ≡ unwound trail cells.old }
{
    // The trail is divided down, so no `for` counts it.
    let mut left = trail;
    while left > 0 {
        restore(cells, left);
        left /= Path::UNDOS;
    }
}

// The literals that are used on the path, a bit for each.
fn used(cells: &[u8; Path::CELLS]) -> u32
    requires { (length cells.now ≡ cell_count) × HasLiterals cells.now }
    ensures { result ≡ bits_of (take (count_in cells.now) cells.now) }
{
    let mut bits: u32 = 0;
    for i in (0..usize::from(cells[Path::CHOSEN])).rev() {
        bits |= 1 << cells[i];
    }
    bits
}

// Makes place for a candidate below a First, and gives what stood there, times `Path::USES`, plus the bits of the literals used on its path; below a
// step 0.
pub fn reserve(cells: &mut [u8; Path::CELLS], above: Above) -> u32
    requires { (length cells.old ≡ cell_count) × HasLiterals cells.old × (above ≡ First → HasPlace cells.old) }
    ensures { (result % use_limit ≡ uses_of above cells.old) × (saved_byte result ≡ kept_in above cells.old)
        × (cells.new ≡ reserved above cells.old) }
{
    match above {
        Above::First => {
            let bits = used(cells);
            let chosen = cells[Path::CHOSEN];
            let slot = usize::from(chosen);
            cells[Path::CHOSEN] = chosen + 1;
            u32::from(cells[slot]) * Path::USES + bits
        }
        Above::Step => 0,
    }
}

// Whether a First passes over a literal, by what its reserve gave.
pub fn in_use(saved: u32, j: usize) -> bool
    requires { j < max_literals }
    ensures { result ≡ has_bit saved j }
{
    (saved >> j) % 2 == 1
}

// Begins pass j: below a First literal j is the candidate and has the head, below a step the head is the one handed on.
pub fn begin(
    query: &[u16],
    tables: &[u8; Clause::TABLES],
    cells: &mut [u8; Path::CELLS],
    above: Above,
    head: usize,
    j: usize,
) -> usize
    requires { Accepted query.now × Tables query.now tables.now × (length cells.old ≡ cell_count)
        × (above ≡ First → HasCandidate cells.old × (j < length (literals query.now))) }
    ensures { (result ≡ pass_head query.now above head j) × (cells.new ≡ candidate above j cells.old) }
{
    match above {
        Above::First => {
            let slot = usize::from(cells[Path::CHOSEN]) - 1;
            cells[slot] = j as u8;
            usize::from(tables[j])
        }
        Above::Step => head,
    }
}

// Takes the place of the candidate away again, by what its reserve gave.
pub fn release(cells: &mut [u8; Path::CELLS], above: Above, saved: u32)
    requires { (length cells.old ≡ cell_count) × (above ≡ First → HasCandidate cells.old) }
    ensures { cells.new ≡ released above (saved_byte saved) cells.old }
{
    match above {
        Above::First => {
            let chosen = cells[Path::CHOSEN] - 1;
            let slot = usize::from(chosen);
            cells[slot] = (saved / Path::USES % Path::BYTES) as u8;
            cells[Path::CHOSEN] = chosen;
        }
        Above::Step => {}
    }
}

// How many literals are gone through: below a First the query's, of which those in use get no pass; below a step one pass is made.
pub fn passes(tables: &[u8; Clause::TABLES], above: Above) -> usize
    ensures { result ≡ passes_of above (slice_index tables.now at_count) }
{
    match above {
        Above::First => usize::from(tables[Clause::COUNT]),
        Above::Step => 1,
    }
}
