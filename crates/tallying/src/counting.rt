// The counters of the tally sheet.
ghost use Rattle.std.specs.Prelude.{◌≡◌};
ghost use Rattle.record.specs.Counters.{raised, counters_after};

use crate::Counters;
use record::Outcome;

// Raises the counter at a place, and it stops at the most that 64 bits count; past the last one none is raised.
fn raise(counters: &mut [u64], at: usize, more: u64)
    ensures { counters.new ≡ raised counters.old at more }
{
    if at < counters.len() {
        counters[at] = counters[at].saturating_add(more);
    }
}

// Counts a strike, if the outcome is one: the counters of the covering number are raised by it and by its candidates.
pub fn count_strike(counters: &mut [u64], outcome: Outcome)
    ensures { counters.new ≡ counters_after outcome counters.old }
{
    if let Outcome::Struck(covering, candidates) = outcome {
        let at = covering as usize * Counters::EACH;
        raise(counters, at, 1);
        raise(counters, at + 1, candidates);
    }
}
