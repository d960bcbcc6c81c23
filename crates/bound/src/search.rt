// The search for the smallest length that passes.
ghost use Rattle.std.specs.Prelude.{◌≡◌, ◌+◌, ◌≤◌, ◌<◌};
ghost use Rattle.sheet.specs.Lists.{sheet_in};
ghost use Rattle.bound.specs.Quantities.{widest_separation};
ghost use Rattle.bound.specs.Test.{passes};
ghost use Rattle.bound.specs.Bound.{word, bound_by};
ghost use Rattle.bound.specs.Inside.Ready.{held_in, Length};
ghost use Rattle.bound.specs.Inside.Skipping.{Adds, Fills, Skips, Says};

use crate::pace::steep;
use crate::quantity::{Duration, FineAmount};
use crate::results::RowResult;
use crate::share::no_room;
use crate::start::first_length;
use crate::stretch::all_fail;
use crate::sum::{Added, rows_to_plan_by, sum_above};
use crate::test::{q_of, room_of};
use crate::turn::Turn;

// The trials that go by what is known, before stretches are guessed.
const CALM: u64 = 8;

// Where among them, counted from their end, the shares of the rows above are asked for room.
const ASKED: u64 = 4;

// Where the search is: the length to try, the slots to guess next, and how many trials are left before it guesses.
#[derive(Clone, Copy)]
pub struct Pursuit {
    pub length: Duration,
    pub guess: Duration,
    pub calm: u64,
}

// The first length after one that fails that is not known to fail, by rows whose sum reaches q × X.
fn next_length(turn: &Turn, length: Duration, added: Added) -> Duration
    requires { (Length (sheet_in turn.now.sheet.now) turn.now.k length) × (Adds (sheet_in turn.now.sheet.now) (held_in turn.now.results.now) turn.now.k length added) × (Fills (sheet_in turn.now.sheet.now) turn.now.k length added) }
    ensures { Skips (sheet_in turn.now.sheet.now) (held_in turn.now.results.now) turn.now.k length result }
{
    let q = q_of(turn);
    let room = room_of(turn, length);
    let over = added.sum.minus(room);
    let count = over.fills(q);
    let further = steep(over, q, added.pace).greater(Duration::of(count));
    length.plus(further).plus(Duration::of(1))
}

// The trial of a length of row `k`: nothing where it passes, else the next length that can, and what its sum can spare, a guide of which nothing is promised.
fn try_length(turn: &Turn, length: Duration) -> Option<(Duration, FineAmount)>
    requires { Length (sheet_in turn.now.sheet.now) turn.now.k length }
    ensures { Says (sheet_in turn.now.sheet.now) (held_in turn.now.results.now) turn.now.k length result }
{
    let tested = sum_above(turn, length);
    let room = room_of(turn, length);
    if tested.sum < room {
        return None;
    }
    let added = rows_to_plan_by(turn, length, tested);
    let next = next_length(turn, length, added);
    let over = added.sum.minus(room);
    Some((next, over.spare()))
}

// How far a stretch is guessed to fail: twice as far as the next length is, or as guessed before, and at most to the deadline.
fn reach_of(length: Duration, next: Duration, deadline: Duration, guess: Duration) -> Duration
    requires { (length.0 < next.0) × (next.0 ≤ deadline.0) × (deadline.0 ≤ widest_separation) }
    ensures { (1 ≤ result.0) × (length.0 + result.0 ≤ deadline.0) }
{
    let step = next.after(length).times(2);
    guess.greater(step).lesser(deadline.after(length))
}

// A step by a guess: over a whole stretch if it is known to fail, else to the next length that is known.
fn leap(turn: &Turn, at: Pursuit, next: Duration, spare: FineAmount) -> Pursuit
    requires { (Length (sheet_in turn.now.sheet.now) turn.now.k at.length) × (Skips (sheet_in turn.now.sheet.now) (held_in turn.now.results.now) turn.now.k at.length next) }
    ensures { Skips (sheet_in turn.now.sheet.now) (held_in turn.now.results.now) turn.now.k at.length result.length }
{
    let row = turn.row();
    if row.deadline < next.slots() {
        return Pursuit {
            length: next,
            calm: 0,
            ..at
        };
    }
    let reach = reach_of(at.length, next, Duration::of(row.deadline), at.guess);
    let end = at.length.plus(reach);
    if all_fail(turn, at.length, end, spare) {
        return Pursuit {
            length: end.plus(Duration::of(1)),
            guess: reach.times(2),
            calm: 0,
        };
    }
    Pursuit {
        length: next,
        guess: Duration::of(reach.slots() / 2),
        calm: 0,
    }
}

// The step from a length at which the shares are asked: past the deadline where the rows above leave no room up to it, else to the next that is known.
fn by_shares(turn: &Turn, at: Pursuit, next: Duration) -> Pursuit
    requires { (Length (sheet_in turn.now.sheet.now) turn.now.k at.length) × (Skips (sheet_in turn.now.sheet.now) (held_in turn.now.results.now) turn.now.k at.length next) }
    ensures { Skips (sheet_in turn.now.sheet.now) (held_in turn.now.results.now) turn.now.k at.length result.length }
{
    let row = turn.row();
    let deadline = Duration::of(row.deadline);
    if no_room(turn, deadline) {
        return Pursuit {
            length: deadline.plus(Duration::of(1)),
            calm: 0,
            ..at
        };
    }
    Pursuit {
        length: next,
        calm: ASKED - 1,
        ..at
    }
}

// The step from a length that fails: to the next that is known, once by the shares, and after some trials by a guess.
fn further(turn: &Turn, at: Pursuit, next: Duration, spare: FineAmount) -> Pursuit
    requires { (Length (sheet_in turn.now.sheet.now) turn.now.k at.length) × (Skips (sheet_in turn.now.sheet.now) (held_in turn.now.results.now) turn.now.k at.length next) }
    ensures { Skips (sheet_in turn.now.sheet.now) (held_in turn.now.results.now) turn.now.k at.length result.length }
{
    if at.calm == ASKED {
        return by_shares(turn, at, next);
    }
    if 0 < at.calm {
        return Pursuit {
            length: next,
            calm: at.calm - 1,
            ..at
        };
    }
    leap(turn, at, next, spare)
}

// The bound of row `k`, by the bounds above: the smallest length that passes.
pub(crate) fn bound_of(turn: &Turn) -> RowResult
    ensures { word result ≡ bound_by passes (sheet_in turn.now.sheet.now) (held_in turn.now.results.now) turn.now.k }
{
    let row = turn.row();
    let mut at = Pursuit {
        length: first_length(turn),
        guess: Duration::of(0),
        calm: CALM,
    };
    // It goes from length to length, and counts nothing.
    while at.length.slots() <= row.deadline {
        let Some((next, spare)) = try_length(turn, at.length) else {
            return RowResult::Bound(at.length.slots());
        };
        at = further(turn, at, next, spare);
    }
    RowResult::NoBound
}
