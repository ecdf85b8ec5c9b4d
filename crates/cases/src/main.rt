// Runs document 01's trial rows without a star by the calls of the C interface: a line has the numbers that its calls returned and told.
// All other cases are rows of tests/rust/cases, which a Rust test puts to the same calls.
#![tactic(auto)]

// What a told word holds before a call, which then means nothing. (Not an Option: the calls are lent plain words, as C lends them.)
const UNTOLD: u64 = 0xffff_ffff_ffff_ffff;

// P(x,a,x) and P(x,x,b).
const FIRST: [u16; 4] = [0x9801, 0x4000, 0x0001, 0x4000];

const SECOND: [u16; 4] = [0x9801, 0x4000, 0x4000, 0x0002];

// Writes a number that was returned or told.
fn write(rt: &HostRuntime, number: u64) {
    if number != UNTOLD {
        let _ = print!(rt; " {number}");
    }
}

// Begins a line with a length.
fn begin(rt: &HostRuntime, text: &str, length: usize) {
    let _ = print!(rt; "{text}");
    write(rt, length as u64);
    let _ = print!(rt; ":");
}

// Keeps a clause under a number.
fn keep(rt: &HostRuntime, tree: &mut [u64], clause: &[u16], number: u32) {
    let mut told = [UNTOLD];
    write(rt, codetree::ct_insert(tree, clause, number, &mut told));
    write(rt, told[0]);
}

// Keeps both clauses; then the second one, after the first is removed.
fn run_room(rt: &HostRuntime, tree: &mut [u64]) {
    begin(rt, "\ntree words", tree.len());
    keep(rt, tree, &FIRST, 1);
    keep(rt, tree, &SECOND, 2);
    write(rt, codetree::ct_remove(tree, 1));
    keep(rt, tree, &SECOND, 2);
}

fn run_rooms(rt: &HostRuntime) {
    run_room(rt, &mut [0; 11]);
    run_room(rt, &mut [0; 10]);
    run_room(rt, &mut [0; 16]);
    run_room(rt, &mut [0; 15]);
}

// Keeps a clause where there is room.
fn run_clause(rt: &HostRuntime, clause: &[u16]) {
    begin(rt, "\nclause words", clause.len());
    keep(rt, &mut [0; 200], clause, 1);
}

// The first 64 words are P(f(..f(a)..)).
fn run_lengths(rt: &HostRuntime) {
    let mut words = [0x0803u16; 65];
    words[0] = 0x8801;
    words[63] = 0x0001;
    run_clause(rt, &words[..64]);
    run_clause(rt, &words);
}

// Literals without arguments.
fn run_literals(rt: &HostRuntime) {
    run_clause(rt, &[0x8001; 8]);
    run_clause(rt, &[0x8001; 9]);
}

// Asks for P(x,a,x) with a budget of 0.
fn ask(rt: &HostRuntime, tree: &[u64], witness: &mut [u16]) {
    begin(rt, "\nwitness words", witness.len());
    let mut told = [UNTOLD; 3];
    write(rt, codetree::ct_query(tree, &FIRST, 0, witness, &mut told));
    for value in told {
        write(rt, value);
    }
}

// On an empty tree; then with the clause kept.
fn run_queries(rt: &HostRuntime, tree: &mut [u64]) {
    ask(rt, tree, &mut [0; 72]);
    ask(rt, tree, &mut [0; 71]);
    let _ = print!(rt; "\nP(x,a,x) kept:");
    keep(rt, tree, &FIRST, 1);
    ask(rt, tree, &mut [0; 72]);
}

fn main(rt: HostRuntime) {
    let _ = print!(rt; "trial rows without a star");
    run_queries(&rt, &mut [0; 16]);
    run_rooms(&rt);
    run_lengths(&rt);
    run_literals(&rt);
    let _ = print!(rt; "\n");
}
