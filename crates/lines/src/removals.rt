// The lines of removals.
ghost use Rattle.std.specs.Prelude.{◌+◌, ◌*◌, ◌≤◌, ◌<◌, length};
ghost use Rattle.clause.specs.Lists.{All};
ghost use Rattle.record.specs.Line.{longest_removal, removal_line, removal_lines};
ghost use Rattle.record.specs.Marks.{number_count};
ghost use Rattle.lines.specs.Inner.Page.{Puts, HasRoom};

use crate::Page;

impl<'a> Page<'a> {
    // Puts the line of a removal. It takes at most `longest_removal` bytes.
    fn put_removal(&mut self, by: u16, number: u32)
        requires { HasRoom longest_removal self.old × (number < number_count) }
        ensures text { Puts (removal_line by number) self.old self.new }
        ensures short { self.new.at ≤ self.old.at + longest_removal }
    {
        self.put_decimal(number as u64);
        self.put_named(b" removed ", by as u64);
        self.put_text(b"\n");
    }

    // Puts the lines of some removals, one after another.
    pub fn put_removals(&mut self, by: u16, numbers: &[u32])
        requires { HasRoom (length numbers.now * longest_removal) self.old × All (λ n. n < number_count) numbers.now }
        ensures text { Puts (removal_lines by numbers.now) self.old self.new }
        ensures short { self.new.at ≤ self.old.at + length numbers.now * longest_removal }
    {
        for &number in numbers {
            self.put_removal(by, number);
        }
    }
}
