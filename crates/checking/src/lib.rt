// Checking a saved slice, and reading a clause back out of it (docs/REFERENCE.md, "Calls"). After the well-laid test the check is one pass over the used
// words, with the keys above the next one in an array that a sequence's keys fit into; reading back is one more, up to the number. No recursion.
#![tactic(auto)]

ghost use Rattle.std.specs.Prelude.{◌≡◌, true, ◌≤◌, length, MatchOption};
ghost use Rattle.std.proofs.Math.Option.{none, some};
ghost use Rattle.clause.specs.Clause.{max_words};
ghost use Rattle.tree.specs.Laid.{sized, well_laid, decode};
ghost use Rattle.tree.specs.Laws.{first_with};
ghost use Rattle.readback.specs.Saved.{all_readable, of_clauses};
ghost use Rattle.readback.specs.Calls as calls;
ghost use Rattle.checking.specs.Inner.Stage.{Gathers};

use clause::Clause;
use decompiling::{Foreign, is_path, read_off};
use laid::well_laid;
use tree::{Refusal, Tree};

mod going;
mod numbers;

pub use going::{Pass, Success, next_success};
use numbers::all_differ;

// Goes over the paths that are left: each is a clause's, and the numbers are noted, one for each; tells how many they are.
fn gather(pass: &mut Pass, numbers: &mut [u32]) -> Result<usize, Foreign>
    requires { length pass.old.left ≤ length numbers.old }
    ensures { Gathers pass.old.left result numbers.new }
{
    let mut count = 0;
    while let Some(number) = pass.next()? {
        if !is_path(pass.path()) {
            return Err(Foreign {});
        }
        numbers[count] = number;
        count += 1;
    }
    Ok(count)
}

// Whether a well-laid slice is the tree of some clauses under different numbers.
fn of_clauses(tree: &[u64]) -> bool
    requires { (sized tree.now ≡ true) × (well_laid tree.now ≡ true) }
    ensures { result ≡ of_clauses (decode tree.now) }
{
    let mut pass = Pass::over(tree);
    let mut numbers = [0u32; Tree::CLAUSES];
    match gather(&mut pass, &mut numbers) {
        Ok(count) => all_differ(&numbers[..count]),
        Err(Foreign {}) => false,
    }
}

// The path to the first Success with a number, if there is one. The caller's paths are all clauses'.
fn path_to<'p>(pass: &'p mut Pass<'_>, number: u32) -> Option<&'p [u64]>
    requires { all_readable pass.old.left ≡ true }
    ensures { MatchOption result (first_with number pass.old.left ≡ none) (λ path. first_with number pass.old.left ≡ some path.now) }
{
    while let Ok(Some(found)) = pass.next() {
        if found == number {
            return Some(pass.path());
        }
    }
    None
}

// Checks a slice of any words: whether it is the tree of some clauses, or of none, under different numbers.
pub fn check(tree: &[u64]) -> Result<(), Refusal>
    ensures { result ≡ calls.check tree.now }
{
    if !Tree::sized(tree.len()) {
        return Err(Refusal::BadSlice);
    }
    if !well_laid(tree) {
        return Err(Refusal::Broken);
    }
    if !of_clauses(tree) {
        return Err(Refusal::NoSuchTree);
    }
    Ok(())
}

// Reads the clause with a number back out of a slice that the caller knows to pass the check.
pub fn read_known(tree: &[u64], number: u32, out: &mut [u16]) -> Result<usize, Refusal>
    requires { (calls.check tree.now ≡ Ok tt) × (max_words ≤ length out.old) }
    ensures { record { answer = result; output = out.new } ≡ calls.read_back tree.now number out.old }
{
    let mut pass = Pass::over(tree);
    let Some(path) = path_to(&mut pass, number) else {
        return Err(Refusal::NoSuchNumber);
    };
    Ok(read_off(path, out).unwrap())
}

// Reads the clause with a number back out of a slice of any words.
pub fn read_back(tree: &[u64], number: u32, out: &mut [u16]) -> Result<usize, Refusal>
    ensures { record { answer = result; output = out.new } ≡ calls.read_back tree.now number out.old }
{
    if !Tree::sized(tree.len()) {
        return Err(Refusal::BadSlice);
    }
    if out.len() < Clause::WORDS {
        return Err(Refusal::ShortOutput);
    }
    check(tree)?;
    read_known(tree, number, out)
}
