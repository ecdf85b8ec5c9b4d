// The shift to the left: words taken out of a tail, and those after them closed up.
ghost use Rattle.std.specs.Prelude.{◌≡◌, ◌≤◌, length};
ghost use Rattle.removal.specs.Inner.Close.{close_up};

// Of the first `used` words the first `gone` go: the others move to the left, and zeros take the last places.
// The caller's words are at least so many.
pub(crate) fn close_up(words: &mut [u64], used: usize, gone: usize)
    requires { (gone ≤ used) × (used ≤ length words.old) }
    ensures { words.new ≡ close_up words.old used gone }
{
    let kept = used - gone;
    words.copy_within(gone..used, 0);
    words[kept..used].fill(0);
}
