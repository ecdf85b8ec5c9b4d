// Insertion of a clause into a slice of any words (docs/REFERENCE.md, "Calls").
#![tactic(auto)]

ghost use Rattle.std.specs.Prelude.{◌≡◌, true};
ghost use Rattle.std.proofs.Math.Option.{none};
ghost use Rattle.tree.specs.Laid.{sized, well_laid, region};
ghost use Rattle.tree.specs.Inner.Cut.{locate};
ghost use Rattle.clause.specs.Clause.{Accepted};
ghost use Rattle.tree.specs.Calls.{insertion};
ghost use Rattle.tree.specs.Inner.ByWords.{insert_by_words};
ghost use Rattle.merging.specs.Inner.Inserting.{LeadsTo, Mergeable};
ghost use Rattle.insertion.specs.Inner.Taken.{is_some};

use compiling::compile;
use laid::well_laid;
use machine::Sequence;
use merging::{Place, insert_at, place_of};
use reading::read;
use tree::{Done, Refusal, Tree, key};

// Inserts a sequence whose place is found, under a number that no Success has.
// The caller (insert_new; in the crate index insert_below) holds the slice well laid, and knows the numbers in it.
pub fn insert_placed(
    tree: &mut [u64],
    keys: &[u64],
    number: u32,
    place: Place,
) -> Result<Done, Refusal>
    requires { Mergeable tree.old keys.now × (locate (region tree.old) number 0 0 0 ≡ none) × LeadsTo (region tree.old) keys.now place }
    ensures { record { answer = result; slice = tree.new }
        ≡ insert_by_words tree.old (record { number = number; keys = keys.now }) }
{
    if let Some(held) = place.holder {
        return Err(Refusal::Held(held));
    }
    if Tree::kept(tree[0]) >= Tree::CLAUSES {
        return Err(Refusal::ListFull);
    }
    insert_at(tree, keys, number, place.at, place.shared)
}

// Inserts a sequence under a number that no Success has: the caller holds the slice well laid, and knows the numbers in it.
pub fn insert_new(tree: &mut [u64], keys: &[u64], number: u32) -> Result<Done, Refusal>
    requires { Mergeable tree.old keys.now × (locate (region tree.old) number 0 0 0 ≡ none) }
    ensures { record { answer = result; slice = tree.new }
        ≡ insert_by_words tree.old (record { number = number; keys = keys.now }) }
{
    let place = place_of(Tree::region(tree), keys);
    insert_placed(tree, keys, number, place)
}

// Whether one of the words is the Success of a number.
fn has_number(words: &[u64], number: u32) -> bool
    ensures { result ≡ is_some (locate words.now number 0 0 0) }
{
    let wanted = number as u64;
    words.iter().any(|w| key(*w) == wanted)
}

// Whether a number is taken: a Success among the used words has it. The caller holds the slice well laid.
fn taken(tree: &[u64], number: u32) -> bool
    requires { (sized tree.now ≡ true) × (well_laid tree.now ≡ true) }
    ensures { result ≡ is_some (locate (region tree.now) number 0 0 0) }
{
    has_number(Tree::region(tree), number)
}

// Inserts a sequence under any number. The caller holds the slice well laid.
fn insert_laid(tree: &mut [u64], keys: &[u64], number: u32) -> Result<Done, Refusal>
    requires { Mergeable tree.old keys.now }
    ensures { record { answer = result; slice = tree.new }
        ≡ insert_by_words tree.old (record { number = number; keys = keys.now }) }
{
    if taken(tree, number) {
        return Err(Refusal::NumberTaken);
    }
    insert_new(tree, keys, number)
}

// Inserts an accepted clause under a number: the caller has read it, and holds the slice well laid.
fn insert_read(tree: &mut [u64], words: &[u16], number: u32) -> Result<Done, Refusal>
    requires { (sized tree.old ≡ true) × (well_laid tree.old ≡ true) × Accepted words.now }
    ensures { record { answer = result; slice = tree.new } ≡ insertion tree.old words.now number }
{
    let mut keys = [0u64; Sequence::KEYS];
    let count = compile(words, &mut keys);
    insert_laid(tree, &keys[..count], number)
}

// Inserts a clause under a number into a slice of any words.
pub fn insert(tree: &mut [u64], words: &[u16], number: u32) -> Result<Done, Refusal>
    ensures { record { answer = result; slice = tree.new } ≡ insertion tree.old words.now number }
{
    if !Tree::sized(tree.len()) {
        return Err(Refusal::BadSlice);
    }
    let shape = read(words);
    let Ok(_) = shape else {
        return Err(Refusal::BadClause(shape.unwrap_err()));
    };
    if !well_laid(tree) {
        return Err(Refusal::Broken);
    }
    insert_read(tree, words, number)
}
