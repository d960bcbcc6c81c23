// The shares of the rows above: what each runs at least in the long run, in 256ths, and whether they leave room for any length.
ghost use Rattle.std.specs.Prelude.{◌≡◌, ◌≤◌, min};
ghost use Rattle.basis.specs.Limits.{most_processors};
ghost use Rattle.sheet.specs.Legal.{row_at};
ghost use Rattle.sheet.specs.Lists.{sheet_in};
ghost use Rattle.bound.specs.Quantities.{widest_separation};
ghost use Rattle.bound.specs.Inside.Parts.{on_fine};
ghost use Rattle.bound.specs.Inside.Ready.{held_in, Length, Above};
ghost use Rattle.bound.specs.Inside.Skipping.{share_of, Shares, AllFail};

use crate::quantity::{Duration, FineAmount};
use crate::test::{fewer, q_of, room_of, span_of, window_of};
use crate::turn::Turn;
use sheet::Row;

// The amount of a row above with this bound, by its share: its budget of every separation.
pub(crate) fn share_above(
    row: Row,
    bound: Duration,
    length: Duration,
    X: Duration,
    q: u64,
) -> FineAmount
    requires { (Above row bound length) × (X.0 ≤ widest_separation) × (q ≤ most_processors) }
    ensures { result ≡ on_fine (share_of row bound length X) (min row.threads q) }
{
    let x = span_of(row, bound, length);
    let part = x.part(row.budget, Duration::of(row.separation));
    let share = part.lesser(X.fine());
    share.on(fewer(row.threads, q))
}

// The sum of the amounts above row `k` by their shares.
fn shares_above(turn: &Turn, length: Duration) -> FineAmount
    requires { Length (sheet_in turn.now.sheet.now) turn.now.k length }
    ensures { Shares (sheet_in turn.now.sheet.now) (held_in turn.now.results.now) turn.now.k length turn.now.k result }
{
    let q = q_of(turn);
    let X = window_of(turn, length);
    let mut sum = FineAmount::none();
    for i in 0..turn.k {
        let (row, bound) = turn.above(i);
        let share = share_above(row, bound, length, X, q);
        sum = sum.plus(share);
    }
    sum
}

// Whether the shares leave no room in a length; where it says so, no length up to it passes.
pub(crate) fn no_room(turn: &Turn, length: Duration) -> bool
    requires { Length (sheet_in turn.now.sheet.now) turn.now.k length }
    ensures { AllFail (sheet_in turn.now.sheet.now) (held_in turn.now.results.now) turn.now.k (row_at (sheet_in turn.now.sheet.now) turn.now.k).budget length.0 result }
{
    let sum = shares_above(turn, length);
    let room = room_of(turn, length);
    sum.reaches(room)
}
