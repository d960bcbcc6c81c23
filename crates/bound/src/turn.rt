// The turn of a row of a legal sheet: the rows above it are judged, and their results stand in the list that its own is put into.
ghost use Rattle.std.specs.Prelude.{◌≡◌, ◌<◌};
ghost use Rattle.sheet.specs.Legal.{row_at};
ghost use Rattle.sheet.specs.Lists.{sheet_in};
ghost use Rattle.bound.specs.Inside.Ready.{held_in, Lent, Ready};

use crate::quantity::Duration;
use crate::row::row_inside;
use sheet::Row;

// Row `k` of a sheet's list, by a list of results that holds the bounds of the rows above.
#[derive(Clone, Copy)]
pub struct Turn<'a> {
    pub sheet: &'a [u64],
    pub results: &'a [u64],
    pub k: usize,
    ghost lent: { Lent sheet.now results.now },
    ghost ready: { Ready (sheet_in sheet.now) (held_in results.now) k },
}

impl<'a> Turn<'a> {
    // The row itself.
    pub(crate) fn row(&self) -> Row
        ensures { result ≡ row_at (sheet_in self.now.sheet.now) self.now.k }
    {
        row_inside(self.sheet, self.k)
    }

    // Row `i` above it, and that row's bound.
    pub(crate) fn above(&self, i: usize) -> (Row, Duration)
        requires { i < self.now.k }
        ensures { (result.0 ≡ row_at (sheet_in self.now.sheet.now) i) × (result.1 ≡ held_in self.now.results.now i) }
    {
        (
            row_inside(self.sheet, i),
            Duration::of(self.results[i * 2 + 1]),
        )
    }
}
