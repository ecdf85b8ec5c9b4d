// The records of the input, one after another, as it comes in blocks.
ghost use Rattle.std.specs.Prelude.{◌≡◌, ◌≤◌, length};
ghost use Rattle.clause.specs.Clause.{max_words};
ghost use Rattle.index.specs.Inner.Heads.{Indexed};
ghost use Rattle.record.specs.Answer.{list_words};
ghost use Rattle.record.specs.Counters.{most_counted};
ghost use Rattle.record.specs.Output.{counted};
ghost use Rattle.answering.specs.Inner.Steady.{CameOut};
ghost use Rattle.intake.specs.Feed.{store_of, finishing, record_ended, proceeding, WholeInput};
ghost use Rattle.answering.specs.Inner.Keepers.{Ready, SameWords};
ghost use Rattle.feeding.specs.Inner.Blocks.{store_with, Within, Feedable, Took};
ghost use Rattle.intake.specs.Feed.{feed as Feed·feed};

use crate::Turn;
use answering::Keeper;
use clause::{Clause, Fault};
use intake::{Half, Heading, Next, Session, Stage, read_some};
use lines::Page;
use machine::Sequence;
use record::{Came, Outcome, Setting, Totals};
use tallying::count_strike;
use tree::{Refusal, Tree};

// The totals with one more record, by its outcome and how many clauses it takes out.
fn count_outcome(totals: Totals, came: &Came) -> Totals
    requires { Within totals 1 most_counted × (came.now.removed ≤ totals.kept) }
    ensures { result ≡ counted came.now.outcome came.now.removed totals }
{
    let records = totals.records + 1;
    let removed = came.removed as u64;
    match came.outcome {
        Outcome::Kept(_) => Totals {
            records,
            kept: totals.kept + 1 - removed,
            removed: totals.removed + removed,
            ..totals
        },
        Outcome::Struck(_, _) => Totals {
            records,
            struck: totals.struck + 1,
            ..totals
        },
        Outcome::Refused(_) => Totals {
            records,
            refused: totals.refused + 1,
            ..totals
        },
    }
}

// What becomes of a whole record; one of more than 64 words was skipped over.
fn outcome_of(
    setting: Setting,
    heading: Heading,
    keeper: &mut Keeper<'_>,
    list: &mut [u32],
    words: &[u16],
) -> Came
    requires { Ready keeper.old × (length list.old ≡ list_words) × (length words.now ≡ max_words) }
    ensures lent { SameWords keeper.old keeper.new }
    ensures came { CameOut (finishing setting heading.number heading.count words.now keeper.old.tree.now) heading.number
        keeper.old.marks.now result list.new keeper.new.tree.now keeper.new.marks.now }
    ensures indexed { Indexed keeper.new.tree.now keeper.new.heads.now }
{
    let end = heading.count as usize;
    if end > Clause::WORDS {
        return Came {
            outcome: Outcome::Refused(Refusal::BadClause(Fault::BadLength)),
            removed: 0,
        };
    }
    keeper.answer(setting, list, &words[..end], heading.number)
}

// Ends a whole record: what becomes of it, the tally, its lines, the totals.
fn finish(
    setting: Setting,
    heading: Heading,
    turn: Turn,
    keeper: &mut Keeper<'_>,
    counters: &mut [u64],
    list: &mut [u32],
    words: &[u16],
    output: &mut [u8],
) -> Turn
    requires { Feedable (store_with words.now keeper.old counters.old) turn.session.totals 1 turn.next output.old
        × Indexed keeper.old.tree.now keeper.old.heads.now × (length list.old ≡ list_words) }
    ensures lent { SameWords keeper.old keeper.new }
    ensures took { Took
        (record_ended setting heading.number heading.count turn.session.totals (store_with words.now keeper.old counters.old)) 1
        turn.next turn.session.totals output.old result.session (store_with words.now keeper.new counters.new)
        (record { next = result.next; output = output.new }) }
    ensures indexed { Indexed keeper.new.tree.now keeper.new.heads.now }
{
    let came = outcome_of(setting, heading, keeper, list, words);
    count_strike(counters, came.outcome);
    let mut page = Page {
        bytes: output,
        at: turn.next,
    };
    page.put_removals(heading.number, &list[..came.removed]);
    page.put_line(heading.number, came.outcome);
    let next = page.at;
    let totals = count_outcome(turn.session.totals, &came);
    Turn {
        session: Session {
            half: Half::Even,
            stage: Stage::AtNumber,
            totals,
        },
        next,
    }
}

// Goes on with the reading, or ends the record that is whole.
fn proceed(
    setting: Setting,
    next: Next,
    turn: Turn,
    keeper: &mut Keeper<'_>,
    counters: &mut [u64],
    list: &mut [u32],
    words: &[u16],
    output: &mut [u8],
) -> Turn
    requires { Feedable (store_with words.now keeper.old counters.old) turn.session.totals 1 turn.next output.old
        × Indexed keeper.old.tree.now keeper.old.heads.now × (length list.old ≡ list_words) }
    ensures lent { SameWords keeper.old keeper.new }
    ensures took { Took
        (proceeding setting next turn.session.totals (store_with words.now keeper.old counters.old)) 1
        turn.next turn.session.totals output.old result.session (store_with words.now keeper.new counters.new)
        (record { next = result.next; output = output.new }) }
    ensures indexed { Indexed keeper.new.tree.now keeper.new.heads.now }
{
    match next {
        Next::Reads(half, stage) => Turn {
            session: Session {
                half,
                stage,
                ..turn.session
            },
            ..turn
        },
        Next::Ends(heading) => finish(
            setting, heading, turn, keeper, counters, list, words, output,
        ),
    }
}

// Takes all records and bytes of a block, one after another. The caller's session and lent words are those that the blocks before have left,
// the index among them.
pub fn feed(
    setting: Setting,
    input: &[u8],
    session: Session,
    tree: &mut [u64],
    marks: &mut [u8],
    heads: &mut [u16],
    counters: &mut [u64],
    words: &mut [u16],
    output: &mut [u8],
) -> Turn
    requires { Feedable (store_of words.old tree.old marks.old counters.old) session.totals (length input.now) 0 output.old
        × Indexed tree.old heads.old }
    ensures took { Took
        (Feed·feed setting session (store_of words.old tree.old marks.old counters.old) input.now)
        (length input.now) 0 session.totals output.old result.session
        (store_of words.new tree.new marks.new counters.new)
        (record { next = result.next; output = output.new }) }
    ensures indexed { Indexed tree.new heads.new }
    ensures whole { WholeInput }
{
    let mut list = [0u32; Tree::CLAUSES];
    let mut keys = [0u64; Sequence::KEYS];
    let mut keeper = Keeper {
        tree,
        marks,
        heads,
        keys: &mut keys,
    };
    let mut turn = Turn { session, next: 0 };
    let mut rest = input;
    while !rest.is_empty() {
        let step = read_some(rest, turn.session, words);
        rest = &rest[step.taken..];
        turn = proceed(
            setting,
            step.next,
            turn,
            &mut keeper,
            counters,
            &mut list,
            words,
            output,
        );
    }
    turn
}
