// The index of heads, from record to record.
ghost use Rattle.std.specs.Prelude.{◌≡◌, true};
ghost use Rattle.tree.specs.Laid.{sized, well_laid};
ghost use Rattle.index.specs.Inner.Heads.{Indexed};
ghost use Rattle.answering.specs.Inner.Steady.{Outdated};

use index::renew;
use record::{Came, Outcome};

// Makes the index anew where a record has gone in; where clauses went out for it, a head may have gone with them.
// The caller's entries are those before the record.
pub(crate) fn reindex(tree: &[u64], heads: &mut [u16], came: &Came)
    requires { (sized tree.now ≡ true) × (well_laid tree.now ≡ true) × Outdated came.now.outcome came.now.removed tree.now heads.old }
    ensures { Indexed tree.now heads.new }
{
    let Outcome::Kept(_) = came.outcome else {
        return;
    };
    if came.removed > 0 {
        heads.fill(0);
    }
    renew(tree, heads);
}
