// The code of a refusal (docs/REFERENCE.md, "Calls").
ghost use Rattle.std.specs.Prelude.{◌≡◌};
ghost use Rattle.tree.specs.Refusal.{code_of};

use crate::Refusal;
use clause::Fault;

impl From<Refusal> for u8 {
    ghost from_gives = { λ refusal code. code ≡ code_of refusal };

    fn from(refusal: Refusal) -> u8 {
        match refusal {
            Refusal::BadSlice => 1,
            Refusal::Broken => 2,
            Refusal::BadClause(Fault::BadLength) => 3,
            Refusal::BadClause(Fault::Bad(_)) => 4,
            Refusal::BadClause(Fault::Ninth(_)) => 5,
            Refusal::ShortWitness => 6,
            Refusal::NumberTaken => 7,
            Refusal::Held(_) => 8,
            Refusal::NoSuchNumber => 9,
            Refusal::ListFull => 10,
            Refusal::NoRoom => 11,
            Refusal::Spent(_) => 12,
            Refusal::BadSize => 13,
            Refusal::NoSuchTree => 14,
            Refusal::ShortOutput => 15,
            Refusal::ShortList => 16,
        }
    }
}

impl Refusal {
    // The code.
    pub fn code(self) -> u8
        ensures { result ≡ code_of self }
    {
        u8::from(self)
    }
}
