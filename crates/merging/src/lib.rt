// Merging: where the keys of a sequence lead in the words of a well-laid slice, and their words put in there, in place.
#![tactic(auto)]

ghost use Rattle.std.specs.Prelude.{◌≡◌, [], ◌++◌, ◌+◌, ◌-◌, ◌<◌, ◌≤◌, length, take, drop};
ghost use Rattle.tree.specs.Laid.{most_words, region};
ghost use Rattle.tree.specs.Inner.Merge.{descend, from_top, new_words};
ghost use Rattle.tree.specs.Inner.ByWords.{insert_at};
ghost use Rattle.merging.specs.Inner.Inserting.{holder_of, Nested, LeadsTo, Descending, Mergeable, Writable};

use machine::Key;
use tree::{Done, Refusal, Tree, extent, key, word};

// Where the words of a sequence go, how many of its keys have a word on the way there, and the number of the clause that keeps it, if one does.
#[derive(Clone, Copy)]
pub struct Place {
    pub at: usize,
    pub shared: usize,
    pub holder: Option<u32>,
}

// The clause whose Success is the first word of the row from `at` up to `end`, if one is.
// The caller's rows end within the words.
fn first_success(words: &[u64], at: usize, end: usize) -> Option<u32>
    requires { end ≤ length words.now }
    ensures { holder_of result ≡ (descend (drop at words.now) 0 (end - at) []).holder }
{
    if at >= end {
        return None;
    }
    let first = key(words[at]);
    if first >= Key::FIRST {
        return None;
    }
    Some(first as u32)
}

// Follows the keys from `known` on down the tree: in each row it hops over the siblings with smaller keys, and goes below the one with the key.
// A hop is as long as an extent, so no `for` counts `at`.
// The caller (place_of; in the crate index place_below) has come to the row from `from` up to `to`.
pub fn follow(words: &[u64], keys: &[u64], from: usize, to: usize, known: usize) -> Place
    requires { Descending words.now keys.now from to known }
    ensures { LeadsTo words.now keys.now result }
{
    let mut at = from;
    let mut end = to;
    let mut shared = known;
    while at < end && shared < keys.len() {
        let w = words[at];
        let here = key(w);
        let wanted = keys[shared];
        if wanted < here {
            return Place {
                at,
                shared,
                holder: None,
            };
        }
        if wanted == here {
            end = at + extent(w);
            at += 1;
            shared += 1;
        } else {
            at += extent(w);
        }
    }
    Place {
        at,
        shared,
        holder: first_success(words, at, end),
    }
}

// Where the keys lead from the topmost row on. The caller's words are the used ones of a well-laid slice.
pub fn place_of(words: &[u64], keys: &[u64]) -> Place
    requires { Nested words.now }
    ensures { LeadsTo words.now keys.now result }
{
    follow(words, keys, 0, words.len(), 0)
}

// Raises the extents on the way of the keys by `new`. It walks as `follow` does, but writes: one walk for both would need each turn's outcome as a value.
// The caller's words are the used ones of a well-laid slice, and the slice has room for `new` more.
fn raise(words: &mut [u64], keys: &[u64], new: u64)
    requires { Nested words.old × (new < most_words) }
    ensures { words.new ≡ (from_top words.old keys.now).raised new }
{
    let mut at: usize = 0;
    let mut end = words.len();
    let mut shared: usize = 0;
    while at < end && shared < keys.len() {
        let w = words[at];
        let here = key(w);
        let wanted = keys[shared];
        if wanted < here {
            return;
        }
        if wanted == here {
            words[at] = w + new;
            end = at + extent(w);
            at += 1;
            shared += 1;
        } else {
            at += extent(w);
        }
    }
}

// Writes the keys one below the other, and then the Success, into words that are just as many.
// The caller's keys are those of a sequence.
fn write_chain(words: &mut [u64], keys: &[u64], number: u32)
    requires { Writable keys.now × (length words.old ≡ length keys.now + 1) }
    ensures { words.new ≡ new_words keys.now number }
{
    let count = keys.len();
    for (i, &k) in keys.iter().enumerate() {
        words[i] = word(k, count + 1 - i);
    }
    words[count] = word(number as u64, 1);
}

// Puts the words of the keys and of the Success in front; the words that stood there move up over the last ones.
// The caller's words have as many at the end that may go.
fn put_in(words: &mut [u64], keys: &[u64], number: u32)
    requires { Writable keys.now × (length keys.now + 1 ≤ length words.old) }
    ensures { words.new
        ≡ new_words keys.now number ++ take (length words.old - (length keys.now + 1)) words.old }
{
    let new = keys.len() + 1;
    let kept = words.len() - new;
    words.copy_within(..kept, new);
    write_chain(&mut words[..new], keys, number);
}

// Inserts a sequence at its place, if there is room: only the used words after the place move.
// The caller has found the place in a well-laid slice.
pub fn insert_at(
    tree: &mut [u64],
    keys: &[u64],
    number: u32,
    at: usize,
    shared: usize,
) -> Result<Done, Refusal>
    requires { Mergeable tree.old keys.now × (at ≤ length (region tree.old)) × (shared ≤ length keys.now) }
    ensures { record { answer = result; slice = tree.new }
        ≡ insert_at tree.old number at (drop shared keys.now) (from_top (region tree.old) keys.now).raised }
{
    let header = tree[0];
    let end = Tree::used(header) + 1;
    let new = keys.len() - shared + 1;
    if end + new > tree.len() {
        return Err(Refusal::NoRoom);
    }
    raise(&mut tree[1..end], keys, new as u64);
    let from = at + 1;
    let to = end + new;
    put_in(&mut tree[from..to], &keys[shared..], number);
    tree[0] = Tree::one_more(header, new);
    Ok(Done::Kept)
}
