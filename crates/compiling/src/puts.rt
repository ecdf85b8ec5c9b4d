// The variables put so far.
ghost use Rattle.std.specs.Prelude.{◌≡◌, [], ◌∷◌, ◌++◌, ◌<◌, ◌≤◌, length};
ghost use Rattle.machine.specs.Instr.{Do, key};
ghost use Rattle.machine.specs.Machine.{slots};
ghost use Rattle.machine.specs.Compile.{first, compares, act, puts_after};
ghost use Rattle.compiling.specs.Inner.Rows.{variables_in, firsts_in, row_keys};
ghost use Rattle.compiling.specs.Inner.Compiling.{HasRoom, Writes, step_keys};

use crate::keys::Keys;
use machine::{Key, Sequence};
use std::marker::Model;

// A variable that was put, and the number of its first put: in bytes, since all puts are cleared for each clause.
#[derive(Clone, Copy)]
struct Put {
    variable: u16,
    first: u8,
}

// The number of the first put of variable v.
fn first_put(puts: &[Put], v: u16) -> usize
    ensures placed { result ≡ first v (variables_in puts.now) }
    ensures inside { result ≤ length puts.now }
{
    puts.iter()
        .position(|put| put.variable == v)
        .unwrap_or(puts.len())
}

// Writes Compare m k for each put k of this literal whose variable was first put as m < k.
fn compare_row(puts: &[Put], from: usize, m: usize, keys: &mut Keys)
    requires { (m < length puts.now) × (from ≤ length puts.now) × (length puts.now ≤ slots)
        × HasRoom (length (row_keys (firsts_in puts.now) from m)) keys.old }
    ensures { Writes (row_keys (firsts_in puts.now) from m) keys.old keys.new }
{
    for k in from.max(m + 1)..puts.len() {
        if usize::from(puts[k].first) == m {
            keys.push(Key::COMPARE + (m as u64) * Key::PAIR + (k as u64));
        }
    }
}

// The puts so far.
#[derive(Drop)]
pub(crate) struct Puts {
    puts: [Put; Sequence::NUMBERS],
    count: usize,
}

// A contract sees the variables.
impl Model for Puts {
    ghost use Rattle.std.specs.Prelude.{List, ℕ, take};
    ghost use Rattle.compiling.specs.Inner.Rows.{variables_in, Numbered};

    ghost Value = { List ℕ };

    ghost view = { λ p. variables_in (take p.count p.puts) };

    ghost invariant = { λ p. Numbered p.count p.puts };
}

impl Puts {
    // No variable.
    pub(crate) fn new() -> Self
        ensures { result ≡ [] }
    {
        Puts {
            puts: [Put {
                variable: 0,
                first: 0,
            }; Sequence::NUMBERS],
            count: 0,
        }
    }

    // How many there are.
    pub(crate) fn count(&self) -> usize
        ensures { result ≡ length self.now }
    {
        self.count
    }

    // Puts one more variable.
    fn put(&mut self, v: u16)
        requires { length self.old < slots }
        ensures { self.new ≡ self.old ++ (v ∷ []) }
    {
        let count = self.count;
        let first = first_put(&self.puts[..count], v) as u8;
        self.puts[count] = Put { variable: v, first };
        self.count = count + 1;
    }

    // Writes Put for a variable, and notes it; Check for any other word.
    pub(crate) fn act(&mut self, word: u16, keys: &mut Keys)
        requires { (length self.old < slots) × HasRoom 1 keys.old }
        ensures { (self.new ≡ puts_after self.old word) × Writes (key (Do (act self.old word)) ∷ []) keys.old keys.new }
    {
        // a variable: kind 1, arity 0
        if word / 0x800 == 8 {
            keys.push(Key::PUT + self.count() as u64);
            self.put(word);
        } else {
            keys.push(Key::CHECK + word as u64);
        }
    }

    // Writes the Compares of a literal that began at put `from`.
    pub(crate) fn compare(&self, from: usize, keys: &mut Keys)
        requires { (from ≤ length self.now) × HasRoom (length (step_keys (compares self.now from))) keys.old }
        ensures { Writes (step_keys (compares self.now from)) keys.old keys.new }
    {
        let puts = &self.puts[..self.count];
        for m in 0..puts.len() {
            compare_row(puts, from, m, keys);
        }
    }
}
