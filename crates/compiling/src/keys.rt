// The keys of a sequence, written one after another.
ghost use Rattle.std.specs.Prelude.{[], ◌∷◌};
ghost use Rattle.compiling.specs.Inner.Compiling.{HasRoom, Writes};

// The lent words, and how many keys are written to them: a length beside them, since they are the caller's, and those past the keys stay as they were.
#[derive(Drop)]
pub(crate) struct Keys<'a> {
    pub(crate) words: &'a mut [u64],
    pub(crate) written: usize,
}

impl<'a> Keys<'a> {
    // Writes one more key.
    pub(crate) fn push(&mut self, key: u64)
        requires { HasRoom 1 self.old }
        ensures { Writes (key ∷ []) self.old self.new }
    {
        self.words[self.written] = key;
        self.written += 1;
    }
}
