// The length that the search begins with: the budget, or later where a bound above can be carried over.
ghost use Rattle.std.specs.Prelude.{◌≡◌, ◌≤◌};
ghost use Rattle.basis.specs.Limits.{most_processors};
ghost use Rattle.sheet.specs.Lists.{sheet_in};
ghost use Rattle.bound.specs.Test.{C};
ghost use Rattle.bound.specs.Inside.Ready.{held_in, Above};
ghost use Rattle.bound.specs.Inside.Skipping.{carried_of, Starts};

use crate::quantity::Duration;
use crate::turn::Turn;
use sheet::{Row, processors};

// The length that the bound of a row above gives a row to begin with.
fn carried(m: u64, row: Row, above: Row, bound: Duration) -> Duration
    requires { (Above above bound (C row)) × (row.threads ≤ most_processors) }
    ensures { result ≡ carried_of m row above bound }
{
    let budget = Duration::of(row.budget);
    let waits = bound.after(Duration::of(above.budget));
    let longer = waits.plus(budget);
    let together = bound.where_so(m < above.threads + row.threads, budget);
    let later = longer.where_so(above.budget <= row.budget, together);
    budget.where_so(row.threads < above.threads, later)
}

// The length of row `k` that the search begins with.
pub(crate) fn first_length(turn: &Turn) -> Duration
    ensures { Starts (sheet_in turn.now.sheet.now) (held_in turn.now.results.now) turn.now.k result }
{
    let m = processors(turn.sheet);
    let row = turn.row();
    let mut first = Duration::of(row.budget);
    for j in 0..turn.k {
        let (above, bound) = turn.above(j);
        let later = carried(m, row, above, bound);
        first = first.greater(later);
    }
    first
}
