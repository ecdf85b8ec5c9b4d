// One word of a row on the lent cells.
ghost use Rattle.std.specs.Prelude.{◌≡◌, List, ◌⊎◌, ℕ, ◌+◌, ◌*◌, ◌≤◌, ◌<◌, ◌/◌, ◌%◌, ◌^◌, length, get_or, set};
ghost use Rattle.clause.specs.Clause.{max_words, max_literals};
ghost use Rattle.machine.specs.Instr.{operands, instruction};
ghost use Rattle.tree.specs.Laid.{key_of};
ghost use Rattle.machine.specs.Machine.{same_terms};
ghost use Rattle.machine.specs.Machine as m;
ghost use Rattle.stepping.specs.declared.Visit.TheVariants.{Stuck, Tries, Stored};
ghost use Rattle.cells.specs.Inner.Cells.{count_at, cell_count, no_position, undo_base, operation_of, count_in, position_in, state_of, Tables, Walkable};
ghost use Rattle.stepping.specs.Inner.Visits.{met_success, met_first, met_down, met_moved, met_put, met_push, met_pop, met_check, met_compare};
ghost use Rattle.stepping.specs.Inner.Visits.{with_words, met_as, meeting, Visited};

use crate::Visit;
use cells::Path;
use clause::Clause;
use machine::Key;
use tree::{Tree, extent};

// The operations by number: what their keys have above the operand.
#[derive(Drop)]
struct Op {}

impl Op {
    const SUCCESS: u64 = 0;

    const FIRST: u64 = Key::FIRST / Key::OPERANDS;

    const DOWN: u64 = Key::DOWN / Key::OPERANDS;

    const RIGHT: u64 = Key::RIGHT / Key::OPERANDS;

    const PUT: u64 = Key::PUT / Key::OPERANDS;

    const PUSH: u64 = Key::PUSH / Key::OPERANDS;

    const POP: u64 = Key::POP / Key::OPERANDS;

    const CHECK: u64 = Key::CHECK / Key::OPERANDS;

    const COMPARE: u64 = Key::COMPARE / Key::OPERANDS;

    // A word has its operation above this.
    const OPERATIONS: u64 = Key::OPERANDS * Tree::EXTENTS;

    // The operand of Compare m k is m × this + k.
    const PAIR: u32 = Key::PAIR as u32;
}

// The operation of a word.
fn operation(w: u64) -> u64
    ensures { result ≡ operation_of w }
{
    w / Op::OPERATIONS
}

// The operand of a word.
pub fn operand(w: u64) -> u32
    ensures { result ≡ key_of w % operands }
{
    (w / Tree::EXTENTS % Key::OPERANDS) as u32
}

// To the first argument, if there is one.
fn down(query: &[u16], head: usize) -> Visit
    requires { (head < length query.now) × (length query.now ≤ max_words) }
    ensures { (l : List ℕ) → Visited head (met_down query.now head l) l l result }
{
    // The arity: three bits above the eleven of the number. By clause::arity it takes an instruction more.
    if query[head] / 0x800 % 8 == 0 {
        Visit::Stuck
    } else {
        let to = head + 1;
        Visit::Below(to)
    }
}

// The right sibling, if there is one.
// A number, Path::NONE for none: with options here and in `moved`, `push`, `pop` and `compare`, tried and proved, the walk took 1.7 % more instructions.
fn right(
    query: &[u16],
    tables: &[u8; Clause::TABLES],
    cells: &[u8; Path::CELLS],
    head: usize,
) -> usize
    requires { Walkable query.now tables.now head cells.now × (head < length query.now) }
    ensures { (position_in result ≡ m.right query.now head) × (result < cell_count) }
{
    let siblings = Clause::SIBLINGS + head;
    let end = Clause::ENDS + head;
    if tables[siblings] == 0 {
        Path::NONE
    } else {
        usize::from(tables[end])
    }
}

// Goes on with another head, if there is one.
fn moved(to: usize) -> Visit
    ensures { (head : ℕ) (l : List ℕ) → Visited head (met_moved to head l) l l result }
{
    if to == Path::NONE {
        Visit::Stuck
    } else {
        Visit::Below(to)
    }
}

// Stores a position in a cell.
fn store(cells: &mut [u8; Path::CELLS], head: usize, slot: usize, position: usize) -> Visit
    requires { (slot < count_at) × (position < cell_count) }
    ensures { (result ≡ Stored head (slot * undo_base + get_or cells.old slot 0))
        × (cells.new ≡ set cells.old slot position) × (get_or cells.old slot 0 < undo_base) }
{
    let old = usize::from(cells[slot]);
    cells[slot] = position as u8;
    Visit::Stored(head, (slot * Path::CELLS + old) as u64)
}

// Put k stores the head.
fn put(cells: &mut [u8; Path::CELLS], head: usize, k: u32) -> Visit
    requires { (count_in cells.old ≤ max_literals) × (head < max_words) }
    ensures { Visited head (met_put k head cells.old) cells.old cells.new result }
{
    if k as usize >= Path::SLOTS {
        return Visit::Stuck;
    }
    let slot = Path::PUTS + k as usize;
    store(cells, head, slot, head)
}

// Push n stores the position to the right.
fn push(cells: &mut [u8; Path::CELLS], head: usize, n: u32, to: usize) -> Visit
    requires { (count_in cells.old ≤ max_literals) × (to < cell_count) }
    ensures { Visited head (met_push n to head cells.old) cells.old cells.new result }
{
    if n as usize >= Path::SLOTS {
        return Visit::Stuck;
    }
    if to == Path::NONE {
        return Visit::Stuck;
    }
    let slot = Path::PUSHES + n as usize;
    store(cells, head, slot, to)
}

// Pop n puts the head at the position pushed under n.
fn pop(cells: &[u8; Path::CELLS], n: u32) -> Visit
    requires { length cells.now ≡ cell_count }
    ensures { (head : ℕ) → Visited head (met_pop n head cells.now) cells.now cells.now result }
{
    if n as usize >= Path::SLOTS {
        return Visit::Stuck;
    }
    let slot = Path::PUSHES + n as usize;
    moved(usize::from(cells[slot]))
}

// Check fails on another word.
fn check(query: &[u16], head: usize, x: u32) -> Visit
    requires { head < length query.now }
    ensures { (l : List ℕ) → Visited head (met_check query.now x head l) l l result }
{
    if u32::from(query[head]) == x {
        Visit::Below(head)
    } else {
        Visit::Fails
    }
}

// Whether the whole terms at two positions are equal, each handed on as a part of the query.
fn same_terms(query: &[u16], tables: &[u8; Clause::TABLES], p: usize, q: usize) -> bool
    requires { (length query.now ≤ max_words) × Tables query.now tables.now × (p < length query.now) × (q < length query.now) }
    ensures { result ≡ same_terms query.now p q }
{
    let p_cell = Clause::ENDS + p;
    let q_cell = Clause::ENDS + q;
    let p_end = usize::from(tables[p_cell]);
    let q_end = usize::from(tables[q_cell]);
    let at_p = &query[p..p_end];
    let at_q = &query[q..q_end];
    at_p == at_q
}

// A Success ends the walk; it has one word.
fn success(words: usize) -> Visit
    ensures { (head : ℕ) (l : List ℕ) → Visited head (met_success words head l) l l result }
{
    if words == 1 { Visit::Hit } else { Visit::Stuck }
}

// A First tries the literals of the query that are not used, where there is a place for one candidate more.
fn tries(cells: &[u8; Path::CELLS]) -> Visit
    requires { length cells.now ≡ cell_count }
    ensures { ((head : ℕ) → Visited head (met_first head cells.now) cells.now cells.now result)
        × ((result ≡ Tries) ⊎ (result ≡ Stuck)) }
{
    if usize::from(cells[Path::CHOSEN]) < Clause::LITERALS {
        Visit::Tries
    } else {
        Visit::Stuck
    }
}

// Compare fails unless the terms at two positions put are equal.
fn compare(
    query: &[u16],
    tables: &[u8; Clause::TABLES],
    cells: &[u8; Path::CELLS],
    head: usize,
    x: u32,
) -> Visit
    requires { Walkable query.now tables.now head cells.now }
    ensures { Visited head (met_compare query.now (x / 2 ^ 16) (x % 2 ^ 16) head cells.now)
        cells.now cells.now result }
{
    let m = (x / Op::PAIR) as usize;
    let k = (x % Op::PAIR) as usize;
    if m >= Path::SLOTS {
        return Visit::Stuck;
    }
    if k >= Path::SLOTS {
        return Visit::Stuck;
    }
    let m_cell = Path::PUTS + m;
    let k_cell = Path::PUTS + k;
    let p = usize::from(cells[m_cell]);
    let q = usize::from(cells[k_cell]);
    if p == Path::NONE {
        return Visit::Stuck;
    }
    if q == Path::NONE {
        return Visit::Stuck;
    }
    if same_terms(query, tables, p, q) {
        Visit::Below(head)
    } else {
        Visit::Fails
    }
}

// Any instruction, of a node with so many words, at a head.
fn act(
    op: u64,
    x: u32,
    words: usize,
    query: &[u16],
    tables: &[u8; Clause::TABLES],
    cells: &mut [u8; Path::CELLS],
    head: usize,
) -> Visit
    requires { Walkable query.now tables.now head cells.old × (head < length query.now) }
    ensures { Visited head (with_words op words (met_as query.now (instruction op x) (state_of head cells.old)))
        cells.old cells.new result }
{
    match op {
        Op::SUCCESS => success(words),
        Op::FIRST => tries(cells),
        Op::DOWN => down(query, head),
        Op::RIGHT => moved(right(query, tables, cells, head)),
        Op::PUT => put(cells, head, x),
        Op::PUSH => {
            let to = right(query, tables, cells, head);
            push(cells, head, x, to)
        }
        Op::POP => pop(cells, x),
        Op::CHECK => check(query, head, x),
        Op::COMPARE => compare(query, tables, cells, head, x),
        _ => Visit::Stuck,
    }
}

// What a word of a row comes to at a head, with so many words of the row from it on.
pub fn meet(
    w: u64,
    room: usize,
    query: &[u16],
    tables: &[u8; Clause::TABLES],
    cells: &mut [u8; Path::CELLS],
    head: usize,
) -> Visit
    requires { Walkable query.now tables.now head cells.old × (1 ≤ room) × (head < length query.now) }
    ensures { Visited head (meeting query.now w room (state_of head cells.old)) cells.old cells.new result }
{
    let words = extent(w);
    if words == 0 {
        return Visit::Stuck;
    }
    if words > room {
        return Visit::Stuck;
    }
    act(operation(w), operand(w), words, query, tables, cells, head)
}

// What a word of the topmost row comes to, before the first candidate: only a First is sound there.
// Apart from `meet`, which has a head to stand at and may store.
pub fn meet_top(
    w: u64,
    room: usize,
    query: &[u16],
    tables: &[u8; Clause::TABLES],
    cells: &[u8; Path::CELLS],
) -> Visit
    requires { Walkable query.now tables.now no_position cells.now × (1 ≤ room) }
    ensures { Visited no_position (meeting query.now w room (state_of no_position cells.now)) cells.now cells.now result
        × ((result ≡ Tries) ⊎ (result ≡ Stuck)) }
{
    let words = extent(w);
    if words == 0 {
        return Visit::Stuck;
    }
    if words > room {
        return Visit::Stuck;
    }
    if operation(w) != Op::FIRST {
        return Visit::Stuck;
    }
    tries(cells)
}
