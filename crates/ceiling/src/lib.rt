// The ceiling of a walk's count, looked up.
#![tactic(auto)]

ghost use Rattle.std.specs.Prelude.{◌≡◌, ◌≤◌};
ghost use Rattle.clause.specs.Clause.{max_literals};
ghost use Rattle.walk.specs.Ceiling.{powers, ceiling_call};
ghost use Rattle.ceiling.specs.Table.{Sums, LastEntry};

use clause::Clause;
use tree::{Refusal, Tree};

// An entry of the table, wide enough for the greatest, which is the last.
type Entry = u32;

// A row for each q, at q - 1, and in it an entry for each m, at m - 1.
type Table = [[Entry; Clause::LITERALS]; Clause::LITERALS];

// The sums q + q² + .. + q^m.
const SUMS: Table = [
    [1, 2, 3, 4, 5, 6, 7, 8],
    [2, 6, 14, 30, 62, 126, 254, 510],
    [3, 12, 39, 120, 363, 1_092, 3_279, 9_840],
    [4, 20, 84, 340, 1_364, 5_460, 21_844, 87_380],
    [5, 30, 155, 780, 3_905, 19_530, 97_655, 488_280],
    [6, 42, 258, 1_554, 9_330, 55_986, 335_922, 2_015_538],
    [7, 56, 399, 2_800, 19_607, 137_256, 960_799, 6_725_600],
    [8, 72, 584, 4_680, 37_448, 299_592, 2_396_744, 19_173_960],
];

// q + q² + .. + q^m, looked up in a table.
fn sum(table: &Table, q: u64, m: u64) -> u64
    requires { Sums table.now × (1 ≤ q) × (q ≤ max_literals) × (1 ≤ m) × (m ≤ max_literals) }
    ensures value { result ≡ powers q m }
    ensures last { LastEntry table.now }
{
    u64::from(table[(q - 1) as usize][(m - 1) as usize])
}

// kept × (q + q² + .. + q^m), for kept up to the most clauses, and q and m from 1 to the most literals.
pub fn ceiling(kept: u64, q: u64, m: u64) -> Result<u64, Refusal>
    ensures { result ≡ ceiling_call kept q m }
{
    let most = Clause::LITERALS as u64;
    if kept > Tree::CLAUSES as u64 || q < 1 || q > most || m < 1 || m > most {
        return Err(Refusal::BadSize);
    }
    // here, past the refusals: a constant is put on the stack where it is used
    let sums = SUMS;
    let highest = kept * sum(&sums, q, m);
    Ok(highest)
}
