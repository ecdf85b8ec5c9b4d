// Compiling a clause into the keys of its sequence (docs/REFERENCE.md, "Instructions").
#![tactic(auto)]

ghost use Rattle.std.specs.Prelude.{◌≡◌, ◌≤◌, ◌<◌, length};
ghost use Rattle.clause.specs.Clause.{max_words};
ghost use Rattle.machine.specs.Compile.{way};
ghost use Rattle.machine.specs.Machine.{slots};
ghost use Rattle.machine.specs.Compiled.{max_keys, Compiled};
ghost use Rattle.compiling.specs.Inner.Compiling.{HasRoom, Writes, first_spot, opening_keys, Opened, step_keys, Went, Orderly, word_keys, Turned};

use clause::arity;
use keys::Keys;
use machine::Key;
use puts::Puts;
use saved::{Position, Saved};

mod keys;
mod puts;
mod saved;

// Where the compiling stands: the right siblings of the next word, if it is inside a literal; the pushes so far; the put at which the literal began;
// the variables put, and the positions to come back to.
#[derive(Drop)]
struct Spot {
    left: Option<usize>,
    pushed: u32,
    from: usize,
    puts: Puts,
    saved: Saved,
}

impl Spot {
    // Before the first literal.
    fn new() -> Self
        ensures { result ≡ first_spot }
    {
        Spot {
            left: None,
            pushed: 0,
            from: 0,
            puts: Puts::new(),
            saved: Saved::new(),
        }
    }

    // Writes First where a literal begins, and gives the right siblings of the next word.
    fn open(&mut self, keys: &mut Keys) -> usize
        requires { HasRoom (length (opening_keys self.old)) keys.old }
        ensures { Opened self.old result self.new × Writes (opening_keys self.old) keys.old keys.new }
    {
        if let Some(left) = self.left {
            return left;
        }
        keys.push(Key::FIRST);
        self.from = self.puts.count();
        self.saved.clear();
        0
    }

    // Writes the steps from a word with so many arguments and right siblings to the next word of its literal.
    fn onward(&mut self, arity: usize, left: usize, keys: &mut Keys)
        requires { (length self.old.saved ≤ self.old.pushed) × (self.old.pushed < slots)
            × HasRoom (length (step_keys (way arity left self.old.saved self.old.pushed).steps)) keys.old }
        ensures { Went (way arity left self.old.saved self.old.pushed) self.old self.new
            × Writes (step_keys (way arity left self.old.saved self.old.pushed).steps) keys.old keys.new }
    {
        if arity > 0 {
            self.left = Some(arity - 1);
            if left > 0 {
                let slot = self.pushed;
                self.saved.push(Position {
                    slot,
                    left: left - 1,
                });
                self.pushed = slot + 1;
                keys.push(Key::PUSH + slot as u64);
            }
            keys.push(Key::DOWN);
        } else if left > 0 {
            self.left = Some(left - 1);
            keys.push(Key::RIGHT);
        } else if let Some(top) = self.saved.pop() {
            self.left = Some(top.left);
            keys.push(Key::POP + top.slot as u64);
        } else {
            self.left = None;
        }
    }

    // Writes the instructions of one word.
    fn compile_word(&mut self, word: u16, keys: &mut Keys)
        requires { (self.old.pushed < slots) × (length self.old.puts < slots) × Orderly self.old × HasRoom (length (word_keys word self.old)) keys.old }
        ensures { Turned word self.old self.new × Writes (word_keys word self.old) keys.old keys.new }
    {
        let left = self.open(keys);
        self.puts.act(word, keys);
        self.onward(arity(word), left, keys);
        if self.left.is_none() {
            self.puts.compare(self.from, keys);
        }
    }
}

// Writes the keys of a clause's sequence, and gives their number.
pub fn compile(words: &[u16], keys: &mut [u64]) -> usize
    requires { (length words.now ≤ max_words) × (max_keys ≤ length keys.old) }
    ensures { Compiled words.now keys.old result keys.new }
{
    let mut out = Keys {
        words: keys,
        written: 0,
    };
    let mut spot = Spot::new();
    for &word in words {
        spot.compile_word(word, &mut out);
    }
    out.written
}
