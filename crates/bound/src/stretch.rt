// A stretch of lengths, decided at its two ends: where the rows above reach the room at both, by amounts that grow evenly from one to the other and that they never
// fall below, every length between fails. All of it in 256ths.
ghost use Rattle.std.specs.Prelude.{◌≡◌, true, ◌+◌, ◌<◌};
ghost use Rattle.sheet.specs.Lists.{sheet_in};
ghost use Rattle.bound.specs.Inside.Ready.{held_in, Length};
ghost use Rattle.bound.specs.Inside.Skipping.{Stretches, Along, RowMeets, RowsMeet, lasts, AllFail};

use crate::quantity::{Duration, FineAmount};
use crate::share::share_above;
use crate::test::{amount_above, q_of, room_of, span_of, window_of};
use crate::turn::Turn;
use sheet::Row;

// Two lengths, and X of each.
#[derive(Clone, Copy)]
pub struct Stretch {
    pub from: Duration,
    pub to: Duration,
    pub early: Duration,
    pub late: Duration,
}

// Amounts at the two ends of a stretch, and what may still be lost at the first: a guide to a choice, of which nothing is promised.
#[derive(Clone, Copy)]
pub struct Ends {
    pub now: FineAmount,
    pub then: FineAmount,
    pub spare: FineAmount,
}

// Whether the present separation of a row above lasts to the end of a stretch.
fn lasts(row: Row, bound: Duration, s: Stretch, q: u64) -> bool
    requires { Along row bound s q }
    ensures { result ≡ lasts row bound s }
{
    let x = span_of(row, bound, s.from);
    let ran = x.left(Duration::of(row.separation));
    let end = ran.plus(s.to.after(s.from));
    end <= Duration::of(row.separation)
}

// The ends of a row above whose present separation lasts: its own amounts.
fn exact_ends(row: Row, bound: Duration, s: Stretch, q: u64, spare: FineAmount) -> Ends
    requires { (Along row bound s q) × (lasts row bound s ≡ true) }
    ensures { RowMeets row bound s q result }
{
    let now = amount_above(row, bound, s.from, s.early, q);
    let then = amount_above(row, bound, s.to, s.late, q);
    Ends {
        now: now.fine(),
        then: then.fine(),
        spare,
    }
}

// The ends of any row above, as if it had run no more at the end than at the start. A function of its own, since one for both takes the later length by a choice, and hard
// sheets take up to a tenth longer.
fn level_ends(row: Row, bound: Duration, s: Stretch, q: u64, spare: FineAmount) -> Ends
    requires { Along row bound s q }
    ensures { RowMeets row bound s q result }
{
    let now = amount_above(row, bound, s.from, s.early, q);
    let then = amount_above(row, bound, s.from, s.late, q);
    Ends {
        now: now.fine(),
        then: then.fine(),
        spare,
    }
}

// The ends of any row above, by its share.
fn share_ends(row: Row, bound: Duration, s: Stretch, q: u64, spare: FineAmount) -> Ends
    requires { Along row bound s q }
    ensures { RowMeets row bound s q result }
{
    Ends {
        now: share_above(row, bound, s.from, s.early, q),
        then: share_above(row, bound, s.to, s.late, q),
        spare,
    }
}

// The ends of a row above: its own amounts, or by its share if what that loses at the first end can be spared, or level.
fn ends_above(row: Row, bound: Duration, s: Stretch, q: u64, spare: FineAmount) -> Ends
    requires { Along row bound s q }
    ensures { RowMeets row bound s q result }
{
    if lasts(row, bound, s, q) {
        return exact_ends(row, bound, s, q, spare);
    }
    let level = level_ends(row, bound, s, q, spare);
    let shared = share_ends(row, bound, s, q, spare);
    let lost = level.now.minus(shared.now);
    if lost <= spare {
        return Ends {
            spare: spare.minus(lost),
            ..shared
        };
    }
    level
}

// The ends of the first `i` rows above row `k`, and of row `i`.
fn with_row(turn: &Turn, s: Stretch, i: usize, ends: Ends) -> Ends
    requires { (Stretches (sheet_in turn.now.sheet.now) turn.now.k s) × (i < turn.now.k) × (RowsMeet (sheet_in turn.now.sheet.now) (held_in turn.now.results.now) turn.now.k s i ends) }
    ensures { RowsMeet (sheet_in turn.now.sheet.now) (held_in turn.now.results.now) turn.now.k s (i + 1) result }
{
    let q = q_of(turn);
    let (row, bound) = turn.above(i);
    let more = ends_above(row, bound, s, q, ends.spare);
    Ends {
        now: ends.now.plus(more.now),
        then: ends.then.plus(more.then),
        spare: more.spare,
    }
}

// The ends of all rows above row `k`.
fn ends_of_rows(turn: &Turn, s: Stretch, spare: FineAmount) -> Ends
    requires { Stretches (sheet_in turn.now.sheet.now) turn.now.k s }
    ensures { RowsMeet (sheet_in turn.now.sheet.now) (held_in turn.now.results.now) turn.now.k s turn.now.k result }
{
    let mut ends = Ends {
        now: FineAmount::none(),
        then: FineAmount::none(),
        spare,
    };
    for i in 0..turn.k {
        ends = with_row(turn, s, i, ends);
    }
    ends
}

// The stretch of row `k` from one length to another.
fn stretch_of(turn: &Turn, from: Duration, to: Duration) -> Stretch
    requires { (Length (sheet_in turn.now.sheet.now) turn.now.k from) × (Length (sheet_in turn.now.sheet.now) turn.now.k to) × (from.0 < to.0) }
    ensures { (Stretches (sheet_in turn.now.sheet.now) turn.now.k result) × (result.from ≡ from) × (result.to ≡ to) }
{
    let early = window_of(turn, from);
    let late = window_of(turn, to);
    Stretch {
        from,
        to,
        early,
        late,
    }
}

// Whether all lengths from one to another are known to fail.
pub(crate) fn all_fail(turn: &Turn, from: Duration, to: Duration, spare: FineAmount) -> bool
    requires { (Length (sheet_in turn.now.sheet.now) turn.now.k from) × (Length (sheet_in turn.now.sheet.now) turn.now.k to) × (from.0 < to.0) }
    ensures { AllFail (sheet_in turn.now.sheet.now) (held_in turn.now.results.now) turn.now.k from.0 to.0 result }
{
    let s = stretch_of(turn, from, to);
    let ends = ends_of_rows(turn, s, spare);
    let first = room_of(turn, from);
    let last = room_of(turn, to);
    ends.now.reaches(first) && ends.then.reaches(last)
}
