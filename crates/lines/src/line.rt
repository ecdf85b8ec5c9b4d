// The line of a record, and the line of totals.
ghost use Rattle.std.specs.Prelude.{◌+◌, ◌≤◌, length};
ghost use Rattle.record.specs.Line.{longest_saying, longest_line, longest_totals, saying, line_of, removed_total, totals_line};
ghost use Rattle.lines.specs.Inner.Page.{Puts, HasRoom};

use crate::Page;
use record::{Outcome, Setting, Totals};

impl<'a> Page<'a> {
    // Puts what became of a record. It takes at most `longest_saying` bytes.
    fn put_outcome(&mut self, outcome: Outcome)
        requires { HasRoom longest_saying self.old }
        ensures text { Puts (saying outcome) self.old self.new }
        ensures short { self.new.at ≤ self.old.at + longest_saying }
    {
        match outcome {
            Outcome::Kept(used) => self.put_named(b" kept ", used),
            Outcome::Struck(covering, candidates) => {
                self.put_named(b" struck ", covering as u64);
                self.put_named(b" ", candidates);
            }
            Outcome::Refused(refusal) => self.put_named(b" refused ", refusal.code() as u64),
        }
    }

    // Puts the line of a record. It takes at most `longest_line` bytes.
    pub fn put_line(&mut self, number: u16, outcome: Outcome)
        requires { HasRoom longest_line self.old }
        ensures text { Puts (line_of number outcome) self.old self.new }
        ensures short { self.new.at ≤ self.old.at + longest_line }
    {
        self.put_decimal(number as u64);
        self.put_outcome(outcome);
        self.put_text(b"\n");
    }

    // Puts how many were removed, only with backward striking.
    fn put_removed_total(&mut self, setting: Setting, removed: u64)
        requires { HasRoom (length (removed_total setting removed)) self.old }
        ensures { Puts (removed_total setting removed) self.old self.new }
    {
        if let Setting::Back = setting {
            self.put_named(b" removed ", removed);
        }
    }

    // Puts the line of totals. It takes at most `longest_totals` bytes.
    pub fn put_totals(&mut self, setting: Setting, totals: Totals)
        requires { HasRoom longest_totals self.old }
        ensures text { Puts (totals_line setting totals) self.old self.new }
        ensures short { self.new.at ≤ self.old.at + longest_totals }
    {
        self.put_named(b"kept ", totals.kept);
        self.put_named(b" struck ", totals.struck);
        self.put_named(b" refused ", totals.refused);
        self.put_removed_total(setting, totals.removed);
        self.put_text(b"\n");
    }
}
