// The query: what is asked of a tree.
ghost use Rattle.std.specs.Prelude.{◌≡◌, cond, true, List, ℕ, ◌+◌, ◌-◌, ◌≤◌, ◌<◌, length, get_or, replicate};
ghost use Rattle.std.proofs.Math.Option.{none, some};
ghost use Rattle.clause.specs.Clause.{Accepted};
ghost use Rattle.tree.specs.Laid.{used_of, sized, well_laid};
ghost use Rattle.cells.specs.Inner.Cells.{cell_count, no_position, state_of};
ghost use Rattle.walking.specs.Inner.Findings.{out_by};
ghost use Rattle.query.specs.Inner.Telling.{told_out};
ghost use Rattle.walk.specs.Query as q;
ghost use Rattle.walk.specs.Query.{witness_words};

use crate::top::walk_top;
use cells::Path;
use clause::Clause;
use tree::{Refusal, Tree};
use walk::{Verdict, Witness};
use walking::End;

// Whether the cells have a witness word to show at a place.
fn shows(cells: &[u8; Path::CELLS], i: usize) -> bool
    requires { (length cells.now ≡ cell_count) × (i < witness_words) }
    ensures { get_or (q.shown (state_of no_position cells.now)) i none ≡ cond result (some (get_or cells.now i 0)) none }
{
    if i < Clause::LITERALS {
        i < usize::from(cells[Path::CHOSEN])
    } else {
        usize::from(cells[i]) != Path::NONE
    }
}

// Writes the candidates and the positions put into the witness, its other words untouched.
fn show(cells: &[u8; Path::CELLS], witness: &mut [u16])
    requires { (length cells.now ≡ cell_count) × (witness_words ≤ length witness.old) }
    ensures { witness.new ≡ q.with_shown (q.shown (state_of no_position cells.now)) witness.old }
{
    for i in 0..Witness::WORDS {
        if shows(cells, i) {
            witness[i] = u16::from(cells[i]);
        }
    }
}

// The answer that a walk comes to, without a witness. The caller is a query of this crate, or in the crate index query_indexed.
pub fn told(found: Result<u64, End>, budget: u64) -> Result<Verdict, Refusal>
    ensures { (W cells : List ℕ) → result ≡ (told_out budget W (out_by found cells)).answer }
{
    match found {
        Ok(count) => Ok(Verdict::NotCovered(count)),
        Err(End::Found(number, count)) => Ok(Verdict::Covered(number, count)),
        Err(End::Broken) => Err(Refusal::Broken),
        Err(End::Spent) => Err(Refusal::Spent(budget)),
    }
}

// The answer that a walk comes to; the witness is written where the tree covers the query.
fn answer(
    found: Result<u64, End>,
    budget: u64,
    cells: &[u8; Path::CELLS],
    witness: &mut [u16],
) -> Result<Verdict, Refusal>
    requires { (length cells.now ≡ cell_count) × (witness_words ≤ length witness.old) }
    ensures { record { answer = result; witness = witness.new }
        ≡ told_out budget witness.old (out_by found cells.now) }
{
    // Two patterns: where one fits both, what does not fit leaves no fact for the proof.
    if let Err(end) = found {
        if let End::Found(_, _) = end {
            show(cells, witness);
        }
    }
    told(found, budget)
}

// Walks the used words of a slice from the state before the first candidate, and answers.
fn search(tree: &[u64], words: &[u16], budget: u64, witness: &mut [u16]) -> Result<Verdict, Refusal>
    requires { Accepted words.now × (1 ≤ length tree.now) × (used_of (get_or tree.now 0 0) ≤ length tree.now - 1)
        × (witness_words ≤ length witness.old) }
    ensures { record { answer = result; witness = witness.new }
        ≡ q.answer_by budget witness.old (q.walk_slice tree.now words.now budget) }
{
    let clause = Clause::of(words);
    let tables = clause.tables;
    let mut cells = [Path::NONE as u8; Path::CELLS];
    cells[Path::CHOSEN] = 0;
    let header = Tree::header(tree[0]);
    let end = header.used + 1;
    let finding = walk_top(&tree[1..end], words, &tables, &mut cells, budget);
    answer(finding, budget, &cells, witness)
}

// What a query of an accepted clause answers, without a witness: the caller has read it, and holds the slice well laid.
pub fn decide(tree: &[u64], words: &[u16], budget: u64) -> Result<Verdict, Refusal>
    requires { (sized tree.now ≡ true) × (well_laid tree.now ≡ true) × Accepted words.now }
    ensures { result ≡ (q.query tree.now words.now budget (replicate witness_words 0)).answer }
{
    let clause = Clause::of(words);
    let tables = clause.tables;
    let mut cells = [Path::NONE as u8; Path::CELLS];
    cells[Path::CHOSEN] = 0;
    let end = Tree::used(tree[0]) + 1;
    let finding = walk_top(&tree[1..end], words, &tables, &mut cells, budget);
    told(finding, budget)
}

// Whether a kept clause covers the words: the clause's number and the count, with the witness, or the count, or a refusal.
pub fn query(
    tree: &[u64],
    words: &[u16],
    budget: u64,
    witness: &mut [u16],
) -> Result<Verdict, Refusal>
    ensures { record { answer = result; witness = witness.new }
        ≡ q.query tree.now words.now budget witness.old }
{
    if !Tree::sized(tree.len()) {
        return Err(Refusal::BadSlice);
    }
    let shape = reading::read(words);
    let Ok(_) = shape else {
        return Err(Refusal::BadClause(shape.unwrap_err()));
    };
    if witness.len() < Witness::WORDS {
        return Err(Refusal::ShortWitness);
    }
    let header = Tree::header(tree[0]);
    if header.used > tree.len() - 1 {
        return Err(Refusal::Broken);
    }
    search(tree, words, budget, witness)
}
