// Text put on a page.
ghost use Rattle.std.specs.Prelude.{◌++◌, length};
ghost use Rattle.record.specs.Text.{decimal};
ghost use Rattle.lines.specs.Inner.Page.{Puts, HasRoom};

use crate::Page;
use crate::decimal::write_decimal;

impl<'a> Page<'a> {
    // Puts some text.
    pub fn put_text(&mut self, text: &[u8])
        requires { HasRoom (length text.now) self.old }
        ensures { Puts text.now self.old self.new }
    {
        let end = self.at + text.len();
        self.bytes[self.at..end].copy_from_slice(text);
        self.at = end;
    }

    // Puts the digits of a number in base ten.
    // std's own digits (`InlineText::of`) are promised only up to a cut, and are no promise of these bytes.
    pub fn put_decimal(&mut self, number: u64)
        requires { HasRoom (length (decimal number)) self.old }
        ensures { Puts (decimal number) self.old self.new }
    {
        self.at = write_decimal(self.bytes, self.at, number);
    }

    // Puts some text and a number after it.
    pub fn put_named(&mut self, text: &[u8], number: u64)
        requires { HasRoom (length (text.now ++ decimal number)) self.old }
        ensures { Puts (text.now ++ decimal number) self.old self.new }
    {
        self.put_text(text);
        self.put_decimal(number);
    }
}
