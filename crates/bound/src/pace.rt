// The pace at which the sum of the amounts grows with the length, and how long a length that fails goes on failing by it.
ghost use Rattle.std.specs.Prelude.{◌≡◌, ◌*◌, ◌≤◌};
ghost use Rattle.basis.specs.Limits.{most_processors};
ghost use Rattle.basis.specs.Words.{pick};
ghost use Rattle.bound.specs.Quantities.{widest_rows};
ghost use Rattle.bound.specs.Inside.Ready.{Above};
ghost use Rattle.bound.specs.Inside.Skipping.{stay_of, joined, Steep};

use crate::quantity::{Amount, Duration};
use crate::test::{span_of, work_of};
use sheet::Row;

// Rows whose durations grow by one in each of the next `stay` slots, and the processors that they take together.
#[derive(Clone, Copy)]
pub struct Pace {
    pub width: u64,
    pub stay: Duration,
}

// The slots for which a row above, with this bound, keeps pace with the length.
pub(crate) fn stay_of_row(row: Row, bound: Duration, length: Duration, X: Duration) -> Duration
    requires { Above row bound length }
    ensures { result ≡ stay_of row bound length X }
{
    let x = span_of(row, bound, length);
    let W = work_of(row, x);
    let ran = x.left(Duration::of(row.separation));
    let job = Duration::of(row.budget).minus(ran);
    job.plus(W.minus(X))
}

// The processors that a row counts for in a pace: none where it does not stay.
fn taken(stays: bool, capped: u64) -> u64
    ensures { result ≡ pick stays capped 0 }
{
    if stays { capped } else { 0 }
}

// The pace with a row more.
pub(crate) fn joined(pace: Pace, capped: u64, stay: Duration) -> Pace
    requires { (pace.width ≤ widest_rows * most_processors) × (capped ≤ most_processors) }
    ensures { result ≡ joined pace capped stay }
{
    let stays = Duration::of(0) < stay;
    let width = pace.width + taken(stays, capped);
    let shared = stay.where_so(stays, pace.stay);
    Pace {
        width,
        stay: pace.stay.lesser(shared),
    }
}

// The slots for which a length so far over goes on failing at this pace.
pub(crate) fn steep(over: Amount, q: u64, pace: Pace) -> Duration
    ensures { Steep over q pace result }
{
    if q <= pace.width {
        return pace.stay;
    }
    let count = over.fills(q - pace.width);
    pace.stay.lesser(Duration::of(count))
}
