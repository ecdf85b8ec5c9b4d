// What a clause word is, by number tests.
ghost use Rattle.std.specs.Prelude.{◌≡◌};
ghost use Rattle.clause.specs.Word.{sort, is_head, is_inside};

// Whether a word is the head of a literal: its kind, the two upper bits, is 2 or 3.
pub(crate) fn is_head(word: u16) -> bool
    ensures { result ≡ is_head (sort word) }
{
    word >= 0x8000
}

// Whether a word stands inside a literal: a function symbol (kind 0), or a variable (kind 1) with no arguments.
pub(crate) fn is_inside(word: u16) -> bool
    ensures { result ≡ is_inside (sort word) }
{
    word < 0x4800
}
