// The clause read off the keys of a path, and whether some clause has these keys: the way back from `compiling`.
#![tactic(auto)]

ghost use Rattle.std.specs.Prelude.{◌≡◌, ◌≤◌, length};
ghost use Rattle.clause.specs.Clause.{max_words};
ghost use Rattle.readback.specs.Readback.{instructions};
ghost use Rattle.readback.specs.Saved.{has_keys, readable};
ghost use Rattle.decompiling.specs.Inner.Reader.{Own, Origins, Counts, Names, Written};

use clause::Clause;
use machine::{Key, Sequence};

// The error of keys that no clause has.
#[derive(Clone, Copy)]
pub struct Foreign;

// How many entries the table of the first puts has: one for each put, and one for all of them.
const COUNTS: usize = Sequence::NUMBERS + 1;

// Each put is its own origin at first, the first put of its variable.
fn start_origins(origins: &mut [u64; Sequence::NUMBERS])
    ensures { Own origins.new }
{
    for k in 0..Sequence::NUMBERS {
        origins[k] = k as u64;
    }
}

// Notes for each put the one that the first Compare of it names.
fn note_origins(keys: &[u64], origins: &mut [u64; Sequence::NUMBERS])
    requires { Own origins.old }
    ensures { Origins (instructions keys.now) origins.new }
{
    for i in (0..keys.len()).rev() {
        let x = keys[i];
        if Key::COMPARE <= x && x < Key::END {
            let k = (x % Key::PAIR) as usize;
            if k < Sequence::NUMBERS {
                origins[k] = x % Key::OPERANDS / Key::PAIR;
            }
        }
    }
}

// Counts the puts that are the first of their variable.
fn note_counts(origins: &[u64; Sequence::NUMBERS], counts: &mut [u64; COUNTS])
    ensures { Counts origins.now counts.new }
{
    let mut firsts = 0;
    counts[0] = 0;
    for k in 0..Sequence::NUMBERS {
        if origins[k] == k as u64 {
            firsts += 1;
        }
        counts[k + 1] = firsts;
    }
}

// The word that a key stands for, if it does: a Check's own, and for a Put the variable numbered by how many new ones stand before the first put of it.
fn word_of(
    x: u64,
    origins: &[u64; Sequence::NUMBERS],
    counts: &[u64; COUNTS],
) -> Result<Option<u16>, Foreign>
    requires { Counts origins.now counts.now }
    ensures { Names origins.now counts.now x result }
{
    let operand = x % Key::OPERANDS;
    match x {
        Key::CHECK..Key::COMPARE => {
            if operand >= Clause::VALUES {
                return Err(Foreign);
            }
            Ok(Some(operand as u16))
        }
        Key::PUT..Key::PUSH => {
            if operand >= Sequence::NUMBERS as u64 {
                return Err(Foreign);
            }
            let m = origins[operand as usize];
            if m >= Sequence::NUMBERS as u64 {
                return Err(Foreign);
            }
            let number = counts[m as usize];
            let variable = Clause::VARIABLE + number;
            Ok(Some(variable as u16))
        }
        _ => Ok(None),
    }
}

// Writes the words that the keys stand for.
fn write_words(
    keys: &[u64],
    origins: &[u64; Sequence::NUMBERS],
    counts: &[u64; COUNTS],
    out: &mut [u16],
) -> Result<usize, Foreign>
    requires { Origins (instructions keys.now) origins.now × Counts origins.now counts.now × (max_words ≤ length out.old) }
    ensures { Written keys.now out.old result out.new }
{
    let mut count = 0;
    for &key in keys {
        if let Some(word) = word_of(key, origins, counts)? {
            if count >= Clause::WORDS {
                return Err(Foreign);
            }
            out[count] = word;
            count += 1;
        }
    }
    Ok(count)
}

// Reads the words of a clause off the keys of its path. Where no clause has the keys, the lent words may hold anything.
pub fn read_off(keys: &[u64], out: &mut [u16]) -> Result<usize, Foreign>
    requires { max_words ≤ length out.old }
    ensures { Written keys.now out.old result out.new }
{
    let mut origins = [0u64; Sequence::NUMBERS];
    let mut counts = [0u64; COUNTS];
    start_origins(&mut origins);
    note_origins(keys, &mut origins);
    note_counts(&origins, &mut counts);
    write_words(keys, &origins, &counts, out)
}

// Whether words are an accepted clause with these keys.
fn has_keys(words: &[u16], keys: &[u64]) -> bool
    requires { length words.now ≤ max_words }
    ensures { result ≡ has_keys words.now keys.now }
{
    let Ok(_) = reading::read(words) else {
        return false;
    };
    let mut compiled = [0u64; Sequence::KEYS];
    let written = compiling::compile(words, &mut compiled);
    &compiled[..written] == keys
}

// Whether keys are those of some clause: the clause read off them is accepted and has them.
pub fn is_path(keys: &[u64]) -> bool
    ensures { result ≡ readable keys.now }
{
    let mut out = [0u16; Clause::WORDS];
    let found = read_off(keys, &mut out);
    let Ok(count) = found else {
        return false;
    };
    has_keys(&out[..count], keys)
}
