// The tally sheet, block after block.
ghost use Rattle.std.specs.Prelude.{◌*◌, ◌≤◌, length};
ghost use Rattle.record.specs.Line.{longest_tally};
ghost use Rattle.record.specs.Tally.{tally_lines};
ghost use Rattle.record.specs.Counters.{shown_from, shown_sheet};
ghost use Rattle.tallying.specs.Inner.Rows.{Showable};
ghost use Rattle.printing.specs.Blocks.{block_numbers};
ghost use Rattle.printing.specs.Handed.{Holds, NextPiece, HandedOn, SheetNext};

use crate::writing::hand_on;
use crate::{Block, Meters};
use tallying::{put_records, put_rows};

// Puts a block of the tally sheet into the output, the rows of the numbers from one on, and hands it on.
fn write_rows(
    rt: &HostRuntime,
    marks: &[u8],
    counters: &[u64],
    from: usize,
    output: &mut [u8],
    meters: &mut Meters,
)
    requires { Showable marks.now counters.now from block_numbers 0 output.old
        × NextPiece meters.old (tally_lines (shown_from marks.now counters.now from block_numbers))
        × Holds (block_numbers * longest_tally) meters.old }
    ensures short { length (tally_lines (shown_from marks.now counters.now from block_numbers)) ≤ block_numbers * longest_tally }
    ensures handed { HandedOn meters.old (length (tally_lines (shown_from marks.now counters.now from block_numbers)))
        meters.new }
{
    let next = put_rows(output, marks, counters, from, Block::NUMBERS);
    hand_on(rt, &output[..next], meters);
}

// Puts the tally sheet into the output and hands it on, its rows block after block and then the records that were read.
pub fn write_tally(
    rt: &HostRuntime,
    records: u64,
    marks: &[u8],
    counters: &[u64],
    output: &mut [u8],
    meters: &mut Meters,
)
    requires { Showable marks.now counters.now 0 block_numbers 0 output.old × SheetNext marks.now counters.now records meters.old }
    ensures { HandedOn meters.old (length (shown_sheet marks.now counters.now records)) meters.new }
{
    for block in 0..marks.len() / Block::NUMBERS {
        write_rows(rt, marks, counters, block * Block::NUMBERS, output, meters);
    }
    let end = put_records(output, records);
    hand_on(rt, &output[..end], meters);
}
