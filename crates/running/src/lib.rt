// The whole run: the listing of the input, line by line with its totals, and then the tally sheet (docs/REFERENCE.md, "The program").
// A record's line is made by `feeding::feed`, the totals by `lines::Page::put_totals`, the tally sheet by `tallying`; what is here moves the bytes.
#![tactic(auto)]

mod settings;

ghost use Rattle.std.specs.Prelude.{◌≡◌, ◌≤◌, length};
ghost use Rattle.record.specs.Line.{longest_totals, totals_line};
ghost use Rattle.record.specs.Promise.{Promise};
ghost use Rattle.intake.specs.Feed.{store_of, first_store};
ghost use Rattle.printing.specs.Handed.{first_meters, Holds, NextPiece, HandedOn};
ghost use Rattle.streaming.specs.Fed.{Buffers};
ghost use Rattle.running.specs.Run.{RunEnds};

use lines::Page;
use printing::{Meters, hand_on, write_tally};
use record::{Setting, Totals};
pub use settings::Argument;
use settings::setting_of;
use streaming::feed_all;

// Puts the totals into the output and hands them on.
fn write_totals(
    rt: &HostRuntime,
    setting: Setting,
    totals: Totals,
    output: &mut [u8],
    meters: &mut Meters,
)
    requires { (longest_totals ≤ length output.old) × NextPiece meters.old (totals_line setting totals) × Holds longest_totals meters.old }
    ensures short { length (totals_line setting totals) ≤ longest_totals }
    ensures handed { HandedOn meters.old (length (totals_line setting totals)) meters.new }
{
    let mut page = Page {
        bytes: output,
        at: 0,
    };
    page.put_totals(setting, totals);
    let end = page.at;
    hand_on(rt, &output[..end], meters);
}

// The whole run, by its argument.
pub fn run(
    rt: &HostRuntime,
    argument: &[u8],
    input: &mut [u8],
    tree: &mut [u64],
    marks: &mut [u8],
    counters: &mut [u64],
    words: &mut [u16],
    output: &mut [u8],
    meters: &mut Meters,
)
    requires { Buffers input.old output.old × (store_of words.old tree.old marks.old counters.old ≡ first_store)
        × (meters.old ≡ first_meters) }
    ensures ends { RunEnds argument.now meters.new }
    ensures promise { Promise }
{
    let setting = setting_of(argument);
    let session = feed_all(
        rt, setting, input, tree, marks, counters, words, output, meters,
    );
    write_totals(rt, setting, session.totals, output, meters);
    write_tally(rt, session.totals.records, marks, counters, output, meters);
}
