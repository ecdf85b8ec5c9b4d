// The positions to come back to.
ghost use Rattle.std.specs.Prelude.{◌≡◌, [], ◌∷◌, ◌<◌, length};
ghost use Rattle.machine.specs.Machine.{slots};
ghost use Rattle.compiling.specs.Inner.Saved.{saved_of, Popped};

use machine::Sequence;
use std::marker::Model;

// A position to come back to: the number of its Push, and how many right siblings it has.
#[derive(Clone, Copy)]
pub(crate) struct Position {
    pub(crate) slot: u32,
    pub(crate) left: usize,
}

// A stack of them.
#[derive(Drop)]
pub(crate) struct Saved {
    positions: [Position; Sequence::NUMBERS],
    depth: usize,
}

// A contract sees the latest first.
impl Model for Saved {
    ghost use Rattle.std.specs.Prelude.{List, ◌≡◌, ◌≤◌, length};
    ghost use Rattle.machine.specs.Machine.{slots};
    ghost use Rattle.machine.specs.Compile as compile;
    ghost use Rattle.compiling.specs.Inner.Saved.{saved_in};

    ghost Value = { List compile.Saved };

    ghost view = { λ s. saved_in s.positions s.depth };

    ghost invariant = { λ s. (s.depth ≤ slots) × (length s.positions ≡ slots) };
}

impl Saved {
    // No position.
    pub(crate) fn new() -> Self
        ensures { result ≡ [] }
    {
        Saved {
            positions: [Position { slot: 0, left: 0 }; Sequence::NUMBERS],
            depth: 0,
        }
    }

    // Forgets all of them.
    pub(crate) fn clear(&mut self)
        ensures { self.new ≡ [] }
    {
        self.depth = 0;
    }

    // Saves one more.
    pub(crate) fn push(&mut self, position: Position)
        requires { length self.old < slots }
        ensures { self.new ≡ saved_of position ∷ self.old }
    {
        self.positions[self.depth] = position;
        self.depth += 1;
    }

    // Takes the latest, if there is one.
    pub(crate) fn pop(&mut self) -> Option<Position>
        ensures { Popped self.old result self.new }
    {
        if self.depth == 0 {
            return None;
        }
        self.depth -= 1;
        Some(self.positions[self.depth])
    }
}
