// A record that is not covered: it is inserted, or takes the place of the kept clauses that it subsumes.
ghost use Rattle.std.specs.Prelude.{◌≡◌, [], ◌≤◌, ◌<◌, length, take};
ghost use Rattle.clause.specs.Clause.{Accepted};
ghost use Rattle.clause.specs.Lists.{All};
ghost use Rattle.tree.specs.Forest.{find};
ghost use Rattle.tree.specs.Laid.{decode};
ghost use Rattle.backward.specs.Calls.{backward};
ghost use Rattle.record.specs.Answer.{budget, list_words, entered, unless_taken, replaced};
ghost use Rattle.record.specs.Marks.{number_count, marked};
ghost use Rattle.answering.specs.Inner.Steady.{CameOut};
ghost use Rattle.answering.specs.Inner.Keepers.{Ready, SameWords};

use crate::{Budget, Keeper};
use backward::Listed;
use compiling::compile;
use index::insert_below;
use listing::list_known;
use record::{Came, Mark, Outcome};
use replacing::replace;
use tree::{Refusal, Tree};

impl<'a> Keeper<'a> {
    // Inserts a record that is not covered. The caller's words are the tree of some clauses, with the marks of its numbers and the index of its heads,
    // and the clause is accepted.
    pub(crate) fn keep(&mut self, words: &[u16], number: u16) -> Outcome
        requires { Ready self.old × Accepted words.now }
        ensures lent { SameWords self.old self.new × (self.new.heads.now ≡ self.old.heads.now) }
        ensures entered { record { outcome = result; removed = []; slice = self.new.tree.now }
            ≡ entered [] self.old.tree.now (record { number = number; words = words.now }) }
        ensures marking { self.new.marks.now ≡ marked result number [] self.old.marks.now }
    {
        let mark = number as usize;
        if self.marks[mark] == Mark::TAKEN {
            return Outcome::Refused(Refusal::NumberTaken);
        }
        let count = compile(words, self.keys);
        let head = words[0] as usize;
        let at = self.heads[head] as usize;
        let answer = insert_below(self.tree, &self.keys[..count], number as u32, at);
        let Err(refusal) = answer else {
            self.marks[mark] = Mark::TAKEN;
            return Outcome::Kept(Tree::used(self.tree[0]) as u64);
        };
        Outcome::Refused(refusal)
    }

    // Takes a record in for the clauses of some numbers; the number of the record is judged before these go.
    fn exchange(&mut self, numbers: &[u32], words: &[u16], number: u16) -> Came
        requires { Ready self.old × Accepted words.now × All (λ n. n < number_count) numbers.now }
        ensures lent { SameWords self.old self.new × (self.new.heads.now ≡ self.old.heads.now) }
        ensures replaced { record { outcome = result.outcome; removed = take result.removed numbers.now; slice = self.new.tree.now }
            ≡ unless_taken (find number (decode self.old.tree.now)) self.old.tree.now
            (entered numbers.now self.old.tree.now (record { number = number; words = words.now })) }
        ensures marking { self.new.marks.now
            ≡ marked result.outcome number (take result.removed numbers.now) self.old.marks.now }
        ensures many { result.removed ≤ length numbers.now }
    {
        if self.marks[number as usize] == Mark::TAKEN {
            return Came {
                outcome: Outcome::Refused(Refusal::NumberTaken),
                removed: 0,
            };
        }
        if numbers.len() > 0 {
            return replace(self.tree, self.marks, numbers, words, number);
        }
        Came {
            outcome: self.keep(words, number),
            removed: 0,
        }
    }

    // Lists the kept clauses that a record subsumes.
    fn list_subsumed(&self, words: &[u16], list: &mut [u32]) -> Result<Listed, Refusal>
        requires { Ready self.now × Accepted words.now }
        ensures { record { answer = result; list = list.new } ≡ backward self.now.tree.now words.now budget list.old }
    {
        list_known(self.tree, words, Budget::CANDIDATES, list)
    }

    // Lists the kept clauses that a record subsumes, and takes it in for them.
    pub(crate) fn strike_back(&mut self, list: &mut [u32], words: &[u16], number: u16) -> Came
        requires { Ready self.old × Accepted words.now × (length list.old ≡ list_words) }
        ensures lent { SameWords self.old self.new × (self.new.heads.now ≡ self.old.heads.now) }
        ensures came { CameOut (replaced self.old.tree.now (record { number = number; words = words.now })) number self.old.marks.now
            result list.new self.new.tree.now self.new.marks.now }
    {
        match self.list_subsumed(words, list) {
            Err(refusal) => Came {
                outcome: Outcome::Refused(refusal),
                removed: 0,
            },
            Ok(listed) => self.exchange(&list[..listed.count], words, number),
        }
    }
}
