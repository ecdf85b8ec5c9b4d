// The program: it reads records from standard input, and writes what becomes of them to standard output (docs/REFERENCE.md, "The program").
// All that it does is `running::run`; here are its first argument, and the words that it lends.
#![tactic(auto)]

ghost use Rattle.std.specs.Prelude.{◌≡◌};
ghost use Rattle.intake.specs.Feed.{store_of, first_store};
ghost use Rattle.printing.specs.Handed.{first_meters};

use clause::Clause;
use printing::Meters;
use record::Lent;
use running::{Argument, run};
use std::env::Env;
use streaming::Limit;
use tallying::Counters;

// Runs on the buffers, which are as long as their types say: where they are made, the prover would count them, cell by cell.
fn start(
    rt: &HostRuntime,
    argument: &[u8],
    input: &mut [u8; Limit::BLOCK],
    tree: &mut [u64; Lent::TREE],
    marks: &mut [u8; Lent::MARKS],
    counters: &mut [u64; Counters::WORDS],
    words: &mut [u16; Clause::WORDS],
    output: &mut [u8; Limit::OUTPUT],
    meters: &mut Meters,
)
    requires { (store_of words.old tree.old marks.old counters.old ≡ first_store) × (meters.old ≡ first_meters) }
{
    run(
        rt, argument, input, tree, marks, counters, words, output, meters,
    );
}

fn main(rt: HostRuntime) {
    let mut argument = [0u8; Argument::BYTES];
    let length = rt.arg(1, &mut argument).unwrap_or(0);
    let mut input = [0u8; Limit::BLOCK];
    let mut tree = [0u64; Lent::TREE];
    let mut marks = [0u8; Lent::MARKS];
    let mut counters = [0u64; Counters::WORDS];
    let mut words = [0u16; Clause::WORDS];
    let mut output = [0u8; Limit::OUTPUT];
    let mut meters = Meters::default();
    start(
        &rt,
        &argument[..length],
        &mut input,
        &mut tree,
        &mut marks,
        &mut counters,
        &mut words,
        &mut output,
        &mut meters,
    );
}
