// The blocks of the input: each is read and fed, and its lines are handed on.
ghost use Rattle.std.specs.Prelude.{◌≡◌, true, false, ◌+◌, ◌-◌, take};
ghost use Rattle.intake.specs.Feed.{store_of, first_store};
ghost use Rattle.index.specs.Inner.Heads.{Indexed};
ghost use Rattle.intake.specs.Feed.{feed as Feed·feed};
ghost use Rattle.printing.specs.Handed.{first_meters};
ghost use Rattle.streaming.specs.Fed.{Buffers, may_read, Grows};
ghost use Rattle.streaming.specs.Inner.Running.{Running};

use crate::input::{may_read, read_block};
use feeding::{Turn, feed};
use index::Heads;
use intake::Session;
use printing::{Meters, hand_on};
use record::Setting;

// Reads a block, feeds what was read, and hands its lines on.
fn take_block(
    rt: &HostRuntime,
    setting: Setting,
    session: Session,
    input: &mut [u8],
    tree: &mut [u64],
    marks: &mut [u8],
    heads: &mut [u16],
    counters: &mut [u64],
    words: &mut [u16],
    output: &mut [u8],
    meters: &mut Meters,
) -> Turn
    requires { Running setting session (store_of words.old tree.old marks.old counters.old) meters.old
        × Buffers input.old output.old × Indexed tree.old heads.old × (may_read meters.old ≡ true) }
    ensures fed { record {
      session = result.session;
      store = store_of words.new tree.new marks.new counters.new;
      text = take result.next output.new;
    }
        ≡ Feed·feed setting session (store_of words.old tree.old marks.old counters.old)
        (take (meters.new.read - meters.old.read) input.new) }
    ensures running { Running setting result.session (store_of words.new tree.new marks.new counters.new)
        meters.new }
    ensures grows { Grows setting session (store_of words.old tree.old marks.old counters.old)
        meters.old
        (take (meters.new.read - meters.old.read) input.new)
        result.session (store_of words.new tree.new marks.new counters.new) meters.new }
    ensures reads { meters.new.reads ≡ meters.old.reads + 1 }
    ensures indexed { Indexed tree.new heads.new }
{
    let count = read_block(rt, input, meters);
    let turn = feed(
        setting,
        &input[..count],
        session,
        tree,
        marks,
        heads,
        counters,
        words,
        output,
    );
    hand_on(rt, &output[..turn.next], meters);
    turn
}

// Takes block after block, with the index of the tree beside it: of a fresh tree it is 0 throughout.
pub fn feed_all(
    rt: &HostRuntime,
    setting: Setting,
    input: &mut [u8],
    tree: &mut [u64],
    marks: &mut [u8],
    counters: &mut [u64],
    words: &mut [u16],
    output: &mut [u8],
    meters: &mut Meters,
) -> Session
    requires { Buffers input.old output.old × (store_of words.old tree.old marks.old counters.old ≡ first_store)
        × (meters.old ≡ first_meters) }
    ensures running { Running setting result (store_of words.new tree.new marks.new counters.new) meters.new }
    ensures ended { may_read meters.new ≡ false }
{
    let mut session = Session::default();
    let mut heads = [0u16; Heads::ENTRIES];
    while may_read(meters) {
        let turn = take_block(
            rt, setting, session, input, tree, marks, &mut heads, counters, words, output, meters,
        );
        session = turn.session;
    }
    session
}
