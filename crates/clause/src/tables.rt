// The tables of an accepted clause in one array: a pass over its words from the last one back, and then a way from literal to literal.
ghost use Rattle.std.specs.Prelude.{◌≡◌, suc, ◌<◌, length, replicate};
ghost use Rattle.clause.specs.Clause.{Accepted};
ghost use Rattle.clause.specs.Inner.Tables.{tables_size, tables_of, tables_from, clause_of};

use crate::Clause;
use crate::word::arity;

// Notes the right siblings of each argument of a word, and where the word's term ends: past the word, then past its arguments.
fn note_term(words: &[u16], tables: &mut [u8; Clause::TABLES], p: usize)
    requires { Accepted words.now × (p < length words.now) × (tables.old ≡ tables_from words.now (suc p)) }
    ensures { tables.new ≡ tables_from words.now p }
{
    let mut at = p + 1;
    for left in (0..arity(words[p])).rev() {
        let rights = Clause::SIBLINGS + at;
        tables[rights] = left as u8;
        at = tables[Clause::ENDS + at] as usize;
    }
    let end = Clause::ENDS + p;
    tables[end] = at as u8;
}

// Notes the ends and the right siblings of all terms.
fn note_terms(words: &[u16], tables: &mut [u8; Clause::TABLES])
    requires { Accepted words.now × (tables.old ≡ replicate tables_size 0) }
    ensures { tables.new ≡ tables_from words.now 0 }
{
    for p in (0..words.len()).rev() {
        note_term(words, tables, p);
    }
}

// Notes where the literals start, each where the one before it ends, and counts them.
fn note_literals(words: &[u16], tables: &mut [u8; Clause::TABLES])
    requires { Accepted words.now × (tables.old ≡ tables_from words.now 0) }
    ensures { tables.new ≡ tables_of words.now }
{
    let mut at = 0;
    let mut count = 0;
    // no `for`: how far the next literal is stands in the tables
    while at < words.len() {
        tables[count] = at as u8;
        count += 1;
        at = tables[Clause::ENDS + at] as usize;
    }
    tables[Clause::COUNT] = count as u8;
}

impl Clause {
    // The tables of an accepted clause.
    pub fn of(words: &[u16]) -> Self
        requires { Accepted words.now }
        ensures { result ≡ clause_of words.now }
    {
        let mut tables = [0u8; Clause::TABLES];
        note_terms(words, &mut tables);
        note_literals(words, &mut tables);
        Clause { tables }
    }
}
