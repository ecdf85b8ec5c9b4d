// What becomes of one record.
ghost use Rattle.std.specs.Prelude.{◌≡◌, length, replicate};
ghost use Rattle.clause.specs.Clause.{Accepted};
ghost use Rattle.index.specs.Inner.Heads.{Indexed};
ghost use Rattle.walk.specs.Query.{witness_words, query};
ghost use Rattle.record.specs.Answer.{budget, list_words, goes_in, answer_to};
ghost use Rattle.answering.specs.Inner.Steady.{CameOut};
ghost use Rattle.answering.specs.Inner.Keepers.{Ready, SameWords};

use crate::indexing::reindex;
use crate::{Budget, Keeper};
use index::query_indexed;
use record::{Came, Outcome, Setting};
use tree::Refusal;
use walk::Verdict;

impl<'a> Keeper<'a> {
    // Queries a record.
    fn query(&self, words: &[u16]) -> Result<Verdict, Refusal>
        requires { Ready self.now }
        ensures { result ≡ (query self.now.tree.now words.now budget (replicate witness_words 0)).answer }
    {
        query_indexed(self.tree, self.heads, words, Budget::CANDIDATES)
    }

    // Takes a record in that is not covered, by the setting.
    fn go_in(&mut self, setting: Setting, list: &mut [u32], words: &[u16], number: u16) -> Came
        requires { Ready self.old × Accepted words.now × (length list.old ≡ list_words) }
        ensures lent { SameWords self.old self.new × (self.new.heads.now ≡ self.old.heads.now) }
        ensures came { CameOut (goes_in setting self.old.tree.now (record { number = number; words = words.now })) number
            self.old.marks.now result list.new self.new.tree.now self.new.marks.now }
    {
        match setting {
            Setting::Plain => Came {
                outcome: self.keep(words, number),
                removed: 0,
            },
            Setting::Back => self.strike_back(list, words, number),
        }
    }

    // Queries a record, and takes it in where it is not covered. The numbers that it takes out stand at the beginning of the list.
    // The caller's words are the tree of some clauses, with the marks of its numbers and the index of its heads.
    pub fn answer(&mut self, setting: Setting, list: &mut [u32], words: &[u16], number: u16) -> Came
        requires { Ready self.old × (length list.old ≡ list_words) }
        ensures lent { SameWords self.old self.new }
        ensures came { CameOut (answer_to setting self.old.tree.now (record { number = number; words = words.now })) number
            self.old.marks.now result list.new self.new.tree.now self.new.marks.now }
        ensures indexed { Indexed self.new.tree.now self.new.heads.now }
    {
        match self.query(words) {
            Err(refusal) => Came {
                outcome: Outcome::Refused(refusal),
                removed: 0,
            },
            Ok(Verdict::Covered(covering, candidates)) => Came {
                outcome: Outcome::Struck(covering, candidates),
                removed: 0,
            },
            Ok(Verdict::NotCovered(_)) => {
                let came = self.go_in(setting, list, words, number);
                // Both are lent as `&mut`: the check has no rule for a `&` to one field beside a `&mut` to another.
                let tree = &mut *self.tree;
                let heads = &mut *self.heads;
                reindex(tree, heads, &came);
                came
            }
        }
    }
}
