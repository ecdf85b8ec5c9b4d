// The input's fields, and the records that they make.
ghost use Rattle.std.specs.Prelude.{◌≡◌, List, ℕ, ◌+◌, ◌*◌, ◌≤◌, ◌<◌, length, take, get_or, IfSome};
ghost use Rattle.std.proofs.lemmas.List.Edits.{sets};
ghost use Rattle.clause.specs.Clause.{max_words};
ghost use Rattle.record.specs.Output.{field_of, fields};
ghost use Rattle.record.specs.declared.Setting.{Setting};
ghost use Rattle.intake.specs.Feed.{store_of, advanced, stored, proceeding, take_byte};
ghost use Rattle.intake.specs.Inner.Steps.{WholeRecord, Stepped};

use crate::{Field, Half, Heading, Next, Portion, Session, Stage};
use clause::Clause;

// What one more field leads to.
fn advance(stage: Stage, field: u16) -> Next
    ensures { result ≡ advanced stage field }
{
    match stage {
        Stage::AtNumber => Next::Reads(Half::Even, Stage::AtCount(field)),
        Stage::AtCount(number) if field > 0 => {
            Next::Reads(Half::Even, Stage::AtWord(number, field, 0))
        }
        Stage::AtCount(number) => Next::Ends(Heading { number, count: 0 }),
        Stage::AtWord(number, count, read) if (read as usize) + 1 < count as usize => {
            Next::Reads(Half::Even, Stage::AtWord(number, count, read + 1))
        }
        Stage::AtWord(number, count, _) => Next::Ends(Heading { number, count }),
    }
}

// Stores a field if it is a word of the record that is being read; past the last place none is stored.
fn store(stage: Stage, field: u16, words: &mut [u16])
    ensures { words.new ≡ stored stage words.old field }
{
    if let Stage::AtWord(_, _, read) = stage {
        let at = read as usize;
        if at < words.len() {
            words[at] = field;
        }
    }
}

// Reads one more byte.
fn read_byte(session: Session, byte: u8, words: &mut [u16]) -> Next
    ensures { (v : Setting) (T m c : List ℕ) → take_byte v session (store_of words.old T m c) byte
        ≡ proceeding v result session.totals (store_of words.new T m c) }
{
    match session.half {
        Half::Even => Next::Reads(Half::Odd(byte), session.stage),
        Half::Odd(high) => {
            let field = u16::from_be_bytes([high, byte]);
            store(session.stage, field, words);
            advance(session.stage, field)
        }
    }
}

// The field at a place of the input: two bytes, the most significant first.
fn field_at(input: &[u8], at: usize) -> u16
    requires { at + 1 < length input.now }
    ensures { result ≡ field_of (get_or input.now at 0) (get_or input.now (at + 1) 0) }
{
    u16::from_be_bytes([input[at], input[at + 1]])
}

// Whether the input begins with a whole record, and how many words it has. One of more than 64 words is taken byte by byte.
fn look_ahead(input: &[u8], session: Session) -> Option<usize>
    ensures { IfSome result (λ count. WholeRecord session input.now count) }
{
    let (Half::Even, Stage::AtNumber) = (session.half, session.stage) else {
        return None;
    };
    if input.len() < Heading::BYTES {
        return None;
    }
    let count = field_at(input, Field::BYTES) as usize;
    if count > Clause::WORDS || input.len() - Heading::BYTES < count * Field::BYTES {
        return None;
    }
    Some(count)
}

// Reads the words that the input begins with.
fn read_words(input: &[u8], words: &mut [u16], count: usize)
    requires { (count * 2 ≤ length input.now) × (count ≤ length words.old) }
    ensures { words.new ≡ sets words.old 0 (fields (take (count * 2) input.now)) }
{
    for i in 0..count {
        words[i] = field_at(input, i * Field::BYTES);
    }
}

// Reads the record that the input begins with, if all of it is there, and else one byte.
pub fn read_some(input: &[u8], session: Session, words: &mut [u16]) -> Portion
    requires { (0 < length input.now) × (length words.old ≡ max_words) }
    ensures { Stepped session input.now words.old result words.new }
{
    let Some(count) = look_ahead(input, session) else {
        let next = read_byte(session, input[0], words);
        return Portion { taken: 1, next };
    };
    let number = field_at(input, 0);
    read_words(&input[Heading::BYTES..], words, count);
    Portion {
        taken: Heading::BYTES + count * Field::BYTES,
        next: Next::Ends(Heading {
            number,
            count: count as u16,
        }),
    }
}
