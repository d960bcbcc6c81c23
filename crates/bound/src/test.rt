// What the test of one length is made of: q, X, q × X, and x, N, W, the duration and the amount of each row above.
ghost use Rattle.std.specs.Prelude.{◌≡◌, ◌≤◌, min};
ghost use Rattle.basis.specs.Limits.{most_processors};
ghost use Rattle.sheet.specs.Lists.{sheet_in};
ghost use Rattle.bound.specs.Quantities.{widest_separation, on};
ghost use Rattle.bound.specs.Test.{q, X, x, W, duration_of, room};
ghost use Rattle.bound.specs.Inside.Ready.{Length, Above, Spans};

use crate::quantity::{Amount, Duration};
use crate::turn::Turn;
use sheet::{Row, processors};

// The smaller of two counts, by hand as the lesser of two quantities is.
pub(crate) fn fewer(a: u64, b: u64) -> u64
    ensures { result ≡ min a b }
{
    if a < b { a } else { b }
}

// q, of row `k`.
pub(crate) fn q_of(turn: &Turn) -> u64
    ensures { result ≡ q (sheet_in turn.now.sheet.now) turn.now.k }
{
    let row = turn.row();
    processors(turn.sheet) - row.threads + 1
}

// X, of row `k` and a length.
pub(crate) fn window_of(turn: &Turn, length: Duration) -> Duration
    requires { Length (sheet_in turn.now.sheet.now) turn.now.k length }
    ensures { result ≡ X (sheet_in turn.now.sheet.now) turn.now.k length }
{
    let row = turn.row();
    let before = length.after(Duration::of(row.budget));
    before.plus(Duration::of(1))
}

// x, of a row above with this bound. The row, its bound, a length, X and q are handed on one by one, here and in the files on paces, shares, sums and stretches: with a struct
// for the row and its bound and one for the rest, which was proved, sheets of eight rows and loaded ones take a twentieth longer.
pub(crate) fn span_of(row: Row, bound: Duration, length: Duration) -> Duration
    requires { Above row bound length }
    ensures { result ≡ x row bound length }
{
    let end = length.plus(bound);
    end.after(Duration::of(row.budget))
}

// W, of a row above in so many slots.
pub(crate) fn work_of(row: Row, x: Duration) -> Duration
    requires { Spans row x }
    ensures { result ≡ W row x }
{
    let budget = Duration::of(row.budget);
    let separation = Duration::of(row.separation);
    let periods = x.rounds(separation);
    let jobs = budget.times(periods);
    let rest = x.left(separation);
    jobs.plus(budget.lesser(rest))
}

// The amount of a row above with this bound: its duration, on its capped threads.
pub(crate) fn amount_above(
    row: Row,
    bound: Duration,
    length: Duration,
    X: Duration,
    q: u64,
) -> Amount
    requires { (Above row bound length) × (X.0 ≤ widest_separation) × (q ≤ most_processors) }
    ensures { result ≡ on (duration_of row bound length X) (min row.threads q) }
{
    let x = span_of(row, bound, length);
    let W = work_of(row, x);
    let duration = W.lesser(X);
    duration.on(fewer(row.threads, q))
}

// q × X, of row `k` and a length.
pub(crate) fn room_of(turn: &Turn, length: Duration) -> Amount
    requires { Length (sheet_in turn.now.sheet.now) turn.now.k length }
    ensures { result ≡ room (sheet_in turn.now.sheet.now) turn.now.k length }
{
    let q = q_of(turn);
    let X = window_of(turn, length);
    X.on(q)
}
