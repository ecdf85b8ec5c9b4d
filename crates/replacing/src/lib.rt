// A record that takes the place of kept clauses: they are removed and it is inserted, or nothing changes (docs/REFERENCE.md, "The program").
#![tactic(auto)]

ghost use Rattle.std.specs.Prelude.{◌≡◌, ◌≤◌, ◌<◌, length, take};
ghost use Rattle.clause.specs.Lists.{All};
ghost use Rattle.book.specs.Book.{after};
ghost use Rattle.record.specs.Answer.{tree_words, removals, entered};
ghost use Rattle.record.specs.Marks.{number_count, freeing, marked};

use insertion::insert;
use record::{Came, Lent, Mark, Outcome};
use removal::remove;
use tree::Tree;

// Removes some numbers from a slice, one after another.
fn remove_all(tree: &mut [u64], numbers: &[u32])
    ensures { tree.new ≡ after tree.old (removals numbers.now) }
{
    for &n in numbers {
        let _ = remove(tree, n);
    }
}

// Marks some numbers, of those that are marked, as taken no more.
fn free(marks: &mut [u8], numbers: &[u32])
    requires { (length marks.old ≡ number_count) × All (λ n. n < number_count) numbers.now }
    ensures { marks.new ≡ freeing numbers.now marks.old }
{
    for &n in numbers {
        let at = n as usize;
        if marks[at] > 0 {
            marks[at] = Mark::WAS_TAKEN;
        }
    }
}

// Inserts a record after the removal of some numbers. All is done on a copy of the tree, which becomes the tree only where the insertion goes through.
pub fn replace(
    tree: &mut [u64],
    marks: &mut [u8],
    numbers: &[u32],
    words: &[u16],
    number: u16,
) -> Came
    requires { (length tree.old ≡ tree_words) × (length marks.old ≡ number_count) × All (λ n. n < number_count) numbers.now }
    ensures entered { record { outcome = result.outcome; removed = take result.removed numbers.now; slice = tree.new }
        ≡ entered numbers.now tree.old (record { number = number; words = words.now }) }
    ensures marking { marks.new
        ≡ marked result.outcome number (take result.removed numbers.now) marks.old }
    ensures many { result.removed ≤ length numbers.now }
{
    let mut new = [0u64; Lent::TREE];
    new.copy_from_slice(tree);
    remove_all(&mut new, numbers);
    let answer = insert(&mut new, words, number as u32);
    let Err(refusal) = answer else {
        tree.copy_from_slice(&new);
        free(marks, numbers);
        let mark = number as usize;
        marks[mark] = Mark::TAKEN;
        return Came {
            outcome: Outcome::Kept(Tree::used(tree[0]) as u64),
            removed: numbers.len(),
        };
    };
    Came {
        outcome: Outcome::Refused(refusal),
        removed: 0,
    }
}
