// Answers handed over: the number returned, the values told.
#![tactic(auto)]

ghost use Rattle.std.specs.Prelude.{◌≡◌, [], ◌∷◌, set, Result, Ok, Err, refl};
ghost use Rattle.tree.specs.declared.Refusal.{Refusal};
ghost use Rattle.tree.specs.Refusal.{code_of, values_of};
ghost use Rattle.tree.specs.declared.Done.TheVariants.{Ready, Kept, Removed};
ghost use Rattle.walk.specs.declared.Verdict.TheVariants.{Covered, NotCovered};
ghost use Rattle.book.specs.Table.{Said, said_refusal, said_call, said_query, said_ceiling, said_check, said_read, said_back};
ghost use Rattle.interface.specs.Told.{number_of, shown_as, told_by, replied};

use backward::Listed;
use clause::Fault;
use tree::{Done, Refusal};
use walk::Verdict;

// Writes a value at a place of told, if told reaches there. (By `get_mut` the proof does not learn what told is where it reaches no further.)
fn tell(told: &mut [u64], at: usize, value: u64)
    ensures { told.new ≡ set told.old at value }
{
    if at < told.len() {
        told[at] = value;
    }
}

// Tells the values of a refusal.
fn tell_refusal(told: &mut [u64], refusal: Refusal)
    ensures { told.new ≡ told_by (values_of refusal) told.old }
{
    match refusal {
        Refusal::BadClause(Fault::Bad(at) | Fault::Ninth(at)) => tell(told, 0, at as u64),
        Refusal::Held(number) => tell(told, 0, number as u64),
        Refusal::Spent(count) => tell(told, 0, count),
        _ => {}
    }
}

// Hands a refusal over: its code, its values told.
fn refuse(refusal: Refusal, told: &mut [u64]) -> u64
    ensures { (result ≡ code_of refusal) × (told.new ≡ told_by (values_of refusal) told.old) }
{
    tell_refusal(told, refusal);
    refusal.code() as u64
}

// What a call answers where it refuses nothing.
pub trait Answer {
    // The call's answers as the table has them, refusals too.
    ghost said: { Result Self Refusal → Said };

    // Tells the values of one.
    fn tell_in(self, told: &mut [u64])
        ensures { told.new ≡ told_by (shown_as (said (Ok self)).title (said (Ok self)).values) told.old };

    // Every call says its refusals alike.
    ghost refuses: { (r : Refusal) → said (Err r) ≡ said_refusal r };

    // What is no refusal returns 0.
    ghost returns_0: { (x : Self) → number_of (said (Ok x)).title ≡ 0 };
}

// Hands a call's answer over.
pub fn hand<T: Answer>(answer: Result<T, Refusal>, told: &mut [u64]) -> u64
    ensures { record { number = result; told = told.new } ≡ replied (T.said answer) told.old }
{
    match answer {
        Err(refusal) => refuse(refusal, told),
        Ok(done) => {
            done.tell_in(told);
            0
        }
    }
}

// Of fresh, insertion and removal, which tell nothing.
impl Answer for Done {
    ghost said = { said_call };

    ghost refuses = { λ r. refl };

    ghost returns_0 = { elim [ Ready ↦ refl | Kept ↦ refl | Removed ↦ refl ] };

    fn tell_in(self, _told: &mut [u64]) {}
}

// Of a query: 1 or 0 for covered or not, the clause's number, the count.
impl Answer for Verdict {
    ghost said = { said_query };

    ghost refuses = { λ r. refl };

    ghost returns_0 = { elim [ Covered n c ↦ refl | NotCovered c ↦ refl ] };

    fn tell_in(self, told: &mut [u64]) {
        match self {
            Verdict::Covered(number, count) => tell_query(told, 1, number as u64, count),
            Verdict::NotCovered(count) => tell_query(told, 0, 0, count),
        }
    }
}

// Tells a query's three values.
fn tell_query(told: &mut [u64], covered: u64, number: u64, count: u64)
    ensures { told.new ≡ told_by (covered ∷ number ∷ count ∷ []) told.old }
{
    tell(told, 0, covered);
    tell(told, 1, number);
    tell(told, 2, count);
}

// Of the ceiling call: the ceiling.
impl Answer for u64 {
    ghost said = { said_ceiling };

    ghost refuses = { λ r. refl };

    ghost returns_0 = { λ x. refl };

    fn tell_in(self, told: &mut [u64]) {
        tell(told, 0, self);
    }
}

// Of reading back: the clause's length.
impl Answer for usize {
    ghost said = { said_read };

    ghost refuses = { λ r. refl };

    ghost returns_0 = { λ x. refl };

    fn tell_in(self, told: &mut [u64]) {
        tell(told, 0, self as u64);
    }
}

// Of listing backward: how many numbers, and the candidates in all.
impl Answer for Listed {
    ghost said = { said_back };

    ghost refuses = { λ r. refl };

    ghost returns_0 = { λ x. refl };

    fn tell_in(self, told: &mut [u64]) {
        tell(told, 0, self.count as u64);
        tell(told, 1, self.candidates);
    }
}

// Of a check, which tells nothing.
impl Answer for () {
    ghost said = { said_check };

    ghost refuses = { λ r. refl };

    ghost returns_0 = { λ x. refl };

    fn tell_in(self, _told: &mut [u64]) {}
}
