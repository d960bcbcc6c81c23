// The sum of the amounts of the rows above, added from the top, with the pace at which it grows. The test of one length leaves it once it reaches q × X; what plans the next length goes on from the
// row where the test left, unless the rows that are added tell enough.
ghost use Rattle.std.specs.Prelude.{◌≡◌, ◌+◌, ◌<◌};
ghost use Rattle.sheet.specs.Lists.{sheet_in};
ghost use Rattle.bound.specs.Quantities.{less};
ghost use Rattle.bound.specs.Test as test;
ghost use Rattle.bound.specs.Inside.Ready.{held_in, Length};
ghost use Rattle.bound.specs.Inside.Skipping.{Adds, Fills};

use crate::pace::{Pace, joined, stay_of_row};
use crate::quantity::{Amount, Duration};
use crate::test::{amount_above, fewer, q_of, room_of, window_of};
use crate::turn::Turn;
use basis::MOST_SEPARATION;

// The first rows above a row, which are added: the sum of their amounts, the pace at which it grows, and how many they are.
#[derive(Clone, Copy)]
pub struct Added {
    pub sum: Amount,
    pub pace: Pace,
    pub rows: usize,
}

// The rows that are added, and the next.
fn add_next(turn: &Turn, length: Duration, X: Duration, q: u64, added: Added) -> Added
    requires { (Length (sheet_in turn.now.sheet.now) turn.now.k length) × (X ≡ test.X (sheet_in turn.now.sheet.now) turn.now.k length) × (q ≡ test.q (sheet_in turn.now.sheet.now) turn.now.k) × (Adds (sheet_in turn.now.sheet.now) (held_in turn.now.results.now) turn.now.k length added) × (added.rows < turn.now.k) }
    ensures { (Adds (sheet_in turn.now.sheet.now) (held_in turn.now.results.now) turn.now.k length result) × (result.rows ≡ added.rows + 1) }
{
    let i = added.rows;
    let (row, bound) = turn.above(i);
    let amount = amount_above(row, bound, length, X, q);
    let stay = stay_of_row(row, bound, length, X);
    Added {
        sum: added.sum.plus(amount),
        pace: joined(added.pace, fewer(row.threads, q), stay),
        rows: i + 1,
    }
}

// The test of a length of row `k`: rows above are added until their sum reaches q × X. It passes where the sum does not. The rows that are added count themselves: a `for`
// would count them a second time; it was tried, here and in `add_rest`, and was slower.
pub(crate) fn sum_above(turn: &Turn, length: Duration) -> Added
    requires { Length (sheet_in turn.now.sheet.now) turn.now.k length }
    ensures { (Adds (sheet_in turn.now.sheet.now) (held_in turn.now.results.now) turn.now.k length result) × (test.passes (sheet_in turn.now.sheet.now) (held_in turn.now.results.now) turn.now.k length ≡ less result.sum (test.room (sheet_in turn.now.sheet.now) turn.now.k length)) }
{
    let q = q_of(turn);
    let X = window_of(turn, length);
    let room = room_of(turn, length);
    let mut added = Added {
        sum: Amount::none(),
        pace: Pace {
            width: 0,
            stay: Duration::of(MOST_SEPARATION),
        },
        rows: 0,
    };
    while added.rows < turn.k {
        added = add_next(turn, length, X, q, added);
        if room <= added.sum {
            return added;
        }
    }
    added
}

// The rows that are added, and all others above row `k`.
fn add_rest(turn: &Turn, length: Duration, added: Added) -> Added
    requires { (Length (sheet_in turn.now.sheet.now) turn.now.k length) × (Adds (sheet_in turn.now.sheet.now) (held_in turn.now.results.now) turn.now.k length added) × (Fills (sheet_in turn.now.sheet.now) turn.now.k length added) }
    ensures { (Adds (sheet_in turn.now.sheet.now) (held_in turn.now.results.now) turn.now.k length result) × (Fills (sheet_in turn.now.sheet.now) turn.now.k length result) }
{
    let q = q_of(turn);
    let X = window_of(turn, length);
    let mut all = added;
    while all.rows < turn.k {
        all = add_next(turn, length, X, q, all);
    }
    all
}

// Whether rows that are added tell enough to plan by: they keep pace by themselves for as long as X again. A guide, of which nothing is promised.
fn tells_enough(q: u64, X: Duration, pace: Pace) -> bool {
    q <= pace.width && X <= pace.stay
}

// The rows that the length after one that fails is planned by: those that the test added where they tell enough, else all.
pub(crate) fn rows_to_plan_by(turn: &Turn, length: Duration, added: Added) -> Added
    requires { (Length (sheet_in turn.now.sheet.now) turn.now.k length) × (Adds (sheet_in turn.now.sheet.now) (held_in turn.now.results.now) turn.now.k length added) × (Fills (sheet_in turn.now.sheet.now) turn.now.k length added) }
    ensures { (Adds (sheet_in turn.now.sheet.now) (held_in turn.now.results.now) turn.now.k length result) × (Fills (sheet_in turn.now.sheet.now) turn.now.k length result) }
{
    let q = q_of(turn);
    let X = window_of(turn, length);
    if tells_enough(q, X, added.pace) {
        return added;
    }
    add_rest(turn, length, added)
}
